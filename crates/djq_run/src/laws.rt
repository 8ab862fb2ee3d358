ghost use Rattle.djq_run.specs.LastWrite.{FailedWriteIsLast};

/// If a write of a run failed, nothing was done and nothing written after it. What was written is
/// what the writes before it accepted, and each of them was offered all that was pending then.
pub fn failed_write_is_last()
    ensures { FailedWriteIsLast }
{}
