//! The answers that are held, by their texts in byte order.
ghost use Rattle.std.specs.Prelude.{◌≡◌, map};
ghost use Rattle.djq_mirror.specs.Acting.{ActsOn, set_texts};
ghost use Rattle.djq_mirror.specs.Mirror.{put, take_out as take_out_of};
ghost use Rattle.djq_mirror.specs.Reading.{act_by};

use crate::mirror::MirrorRefusal;
use crate::turn::Act;
use std::alloc::Global;
use std::collections::BTreeSet;

/// The texts of answers.
pub(crate) type Texts = BTreeSet<Vec<u8>>;

/// Does this to the texts. After a refusal they are as before.
pub(crate) fn act_on(alloc: Global, texts: &mut Texts, act: Act<'_>) -> Result<(), MirrorRefusal>
    ensures { ActsOn (set_texts texts.old) (act_by act.entry) result (set_texts texts.new) }
{
    match act {
        Act::Keep => Ok(()),
        Act::Clear => {
            texts.clear();
            Ok(())
        }
        Act::Put(text) => put_in(alloc, texts, text),
        Act::TakeOut(text) => take_out(texts, text),
    }
}

/// Inserts a text that isn't in the set.
fn put_in(alloc: Global, texts: &mut Texts, text: &[u8]) -> Result<(), MirrorRefusal>
    ensures { ActsOn (set_texts texts.old) (put text.now) result (set_texts texts.new) }
{
    if texts.contains(text) {
        return Err(MirrorRefusal::Outside);
    }
    let Ok(owned) = Vec::from_slice(alloc, text) else {
        return Err(MirrorRefusal::NoMem);
    };
    let Ok(_added) = texts.insert(owned) else {
        return Err(MirrorRefusal::NoMem);
    };
    Ok(())
}

/// Deletes a text that is in the set.
fn take_out(texts: &mut Texts, text: &[u8]) -> Result<(), MirrorRefusal>
    ensures { ActsOn (set_texts texts.old) (take_out_of text.now) result (set_texts texts.new) }
{
    // that the texts are in order
    let _count = texts.len();
    if texts.remove(text) {
        Ok(())
    } else {
        Err(MirrorRefusal::Outside)
    }
}
