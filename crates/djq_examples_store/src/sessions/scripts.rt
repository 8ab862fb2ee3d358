//! What sessions do by turns, and the results.
use super::Move::{
    self, Closes, Commits, Counts, Ended, Fills, HasMore, IsLast, IsShut, IsTold, Keeps, Loads,
    Opens, Says, Steps, TakesEither,
};
use djq_machine::Loaded;
use djq_protocol::EndCause;

/// Each move after its session; one that is of none has session 0.
pub(super) const SCRIPTS: [(&str, &[(u64, Move)]); 12] = [
    (
        "as many sessions are open as may be, and one more once one is closed",
        &[
            (64, Fills),
            (65, IsShut),
            (7, Closes),
            (65, Opens),
            (65, Counts(0, 0, 64, false)),
            (65, Says(b"quit\nrel r int\n")),
            (65, IsTold(b"bye\n")),
            (65, Counts(0, 0, 64, false)),
            (9, Says(b"stop\nrel r int\n")),
            (9, IsTold(b"bye\n")),
            (9, Counts(0, 0, 64, true)),
        ],
    ),
    (
        "a listing stays while another session stops",
        &[
            (1, Opens),
            (2, Opens),
            (
                1,
                Says(b"rel r int\nquery q(x) <- r(x)\nadd r 1\nadd r 2\nopen c q\n"),
            ),
            (
                1,
                IsTold(b"ok\nok query 3\nok added 1 1\nok added 2 1\nok open\n"),
            ),
            (1, Says(b"next c 1000\n")),
            (2, Says(b"stop\n")),
            (2, IsTold(b"bye\n")),
            (1, IsTold(b"= 1\n= 2\nend\n")),
            (1, Counts(2, 2, 2, true)),
        ],
    ),
    (
        "one session of three has too much pending",
        &[
            (3, Fills),
            (
                1,
                Says(b"rel r int\nquery q(x) <- r(x)\nwatch p\nunwatch p\nwatch q\nwatch q\n"),
            ),
            (
                1,
                IsTold(b"ok\nok query 3\nerr 4 no query\nerr 4 no query\nok watch 0\nok watch 0\n"),
            ),
            (
                1,
                Says(b"rel b text\nquery p(x,y,z,w) <- b(x), b(y), b(z), b(w)\n"),
            ),
            (
                1,
                Says(
                    b"add b \"0123456789012345678901234567890123456789012345678901234567890123\"\nadd b \"1123456789012345678901234567890123456789012345678901234567890123\"\nadd b \"2123456789012345678901234567890123456789012345678901234567890123\"\nadd b \"3123456789012345678901234567890123456789012345678901234567890123\"\nadd b \"4123456789012345678901234567890123456789012345678901234567890123\"\nadd b \"5123456789012345678901234567890123456789012345678901234567890123\"\nadd b \"6123456789012345678901234567890123456789012345678901234567890123\"\nadd b \"7123456789012345678901234567890123456789012345678901234567890123\"\nadd b \"8123456789012345678901234567890123456789012345678901234567890123\"\nadd b \"9123456789012345678901234567890123456789012345678901234567890123\"\n",
                ),
            ),
            (2, Says(b"watch q\n")),
            (3, Says(b"watch q\n")),
            (2, Says(b"open c p\nnext c 1000\nnext c 1000\n")),
            (2, Says(b"next c 1000\nnext c 1000\n")),
            (2, HasMore(1_080_000)),
            (3, Says(b"add r 5\n")),
            (2, Ended(EndCause::Slow)),
            (2, IsLast(b"more\nend slow\n")),
            (1, IsLast(b"ok added 10 1\n+ q 5\nat q 11\n")),
            (3, IsTold(b"ok watch 10\n+ q 5\nat q 11\nok added 11 1\n")),
        ],
    ),
    (
        "a line that changes something is logged as it was said",
        &[
            (1, Opens),
            (1, Keeps(&[])),
            (1, Steps(b"rel r int\r\n")),
            (1, Keeps(&[b"rel r int"])),
            (1, Steps(b" add  r 7\n")),
            (1, Keeps(&[b" add  r 7"])),
            (1, Steps(b"add r 7\n")),
            (1, Keeps(&[b"add r 7"])),
            (1, Steps(b"del r 9\n")),
            (1, Keeps(&[])),
            (1, Steps(b"query q(x) <- r(x)\n")),
            (1, Keeps(&[b"query q(x) <- r(x)"])),
            (1, Steps(b"query p(y) <- r(y)\n")),
            (1, Steps(b"union u q p\n")),
            (1, Keeps(&[b"union u q p"])),
            (1, Steps(b"union v q u\n")),
            (1, Keeps(&[])),
            (1, Steps(b"open c q\n")),
            (1, Keeps(&[])),
        ],
    ),
    (
        "the lines of a transaction are logged as it commits, without the number of `done`, and none before",
        &[
            (1, Opens),
            (1, Says(b"rel r int\nbatch\n add  r 7\nadd r 8\ndel r 8\n")),
            (1, Keeps(&[])),
            (1, Steps(b"done 3\n")),
            (
                1,
                Keeps(&[b"batch", b" add  r 7", b"add r 8", b"del r 8", b"done"]),
            ),
            (1, Says(b"batch\nadd r 9\ndel r 1\n")),
            (1, Steps(b"done\n")),
            (1, Keeps(&[])),
            (1, Says(b"batch\n")),
            (1, Keeps(&[])),
        ],
    ),
    (
        "an update of a row below a watched join is one change, which lists only what it changes",
        &[
            (2, Fills),
            (
                1,
                Says(
                    b"rel r int int\nrel s int int\nquery q(x,y,z) <- r(x,y), s(y,z)\nquery p(x) <- r(x,y), s(y,z)\n",
                ),
            ),
            (1, Says(b"add s 1 5\nadd s 2 6\nadd r 9 1\n")),
            (
                1,
                IsTold(
                    b"ok\nok\nok query 7\nok query 3\nok added 1 1\nok added 2 1\nok added 3 1\n",
                ),
            ),
            (2, Says(b"watch q\nwatch p\n")),
            (2, IsTold(b"ok watch 3\nok watch 3\n")),
            (1, Says(b"batch\ndel r 9 1\nadd r 9 2\ndone 2\n")),
            (1, IsTold(b"ok batch\nok held 1\nok held 2\nok done 4 2\n")),
            (
                2,
                TakesEither(
                    b"- q 9 1 5\n+ q 9 2 6\nat q 4\nat p 4\n",
                    b"+ q 9 2 6\n- q 9 1 5\nat q 4\nat p 4\n",
                ),
            ),
            (1, Counts(4, 1, 2, false)),
        ],
    ),
    (
        "a transaction inserts and deletes, by all copies that its lines leave",
        &[
            (2, Fills),
            (
                1,
                Says(
                    b"rel r int\nrel s int\nquery q(x) <- r(x), s(x)\nadd r 1\nadd s 1\nadd r 1\nopen c q\n",
                ),
            ),
            (
                1,
                IsTold(b"ok\nok\nok query 3\nok added 1 1\nok added 2 1\nok added 2 2\nok open\n"),
            ),
            (2, Says(b"watch q\n")),
            (2, IsTold(b"ok watch 2\n")),
            (1, Says(b"batch\nadd s 2\ndel r 1\ndel r 1\n")),
            (1, Says(b"add r 2\nadd r 3\ndel r 3\ndone\n")),
            (
                1,
                IsTold(
                    b"ok batch\nok held 1\nok held 2\nok held 3\nok held 4\nok held 5\nok held 6\nok done 3 3\n",
                ),
            ),
            (
                2,
                TakesEither(b"- q 1\n+ q 2\nat q 3\n", b"+ q 2\n- q 1\nat q 3\n"),
            ),
            (1, Says(b"next c 1\nhas q 2\n")),
            (1, IsTold(b"stale c s 3\nyes\n")),
            (1, Counts(3, 1, 2, false)),
        ],
    ),
    (
        "a transaction is refused for a row without a copy, and for another number of lines",
        &[
            (1, Opens),
            (
                1,
                Says(b"rel r int\nquery q(x) <- r(x)\nadd r 1\nwatch q\n"),
            ),
            (1, IsTold(b"ok\nok query 3\nok added 1 1\nok watch 1\n")),
            (1, Says(b"batch\nadd r 7\ndel r 9\nadd r 8\ndone\n")),
            (
                1,
                IsTold(b"ok batch\nok held 1\nok held 2\nok held 3\nerr 19 absent\n"),
            ),
            (1, Says(b"done\nbatch\ndel r 1\ndel r 1\ndone 2\n")),
            (
                1,
                IsTold(b"err 18 batch\nok batch\nok held 1\nok held 2\nerr 19 absent\n"),
            ),
            (1, Says(b"batch\nadd r 7\ndone 2\nabandon\n")),
            (
                1,
                IsTold(b"ok batch\nok held 1\nerr 20 held\nerr 18 batch\n"),
            ),
            (1, Says(b"batch\ndel r 9\ndone 99999999999999999999\n")),
            (1, IsTold(b"ok batch\nok held 1\nerr 20 held\n")),
            (
                1,
                Says(b"batch\ndone 0\nbatch\nadd r 3\ndel r 3\ndone 02\n"),
            ),
            (
                1,
                IsTold(b"ok batch\nok done 1 0\nok batch\nok held 1\nok held 2\nok done 1 0\n"),
            ),
            (1, Counts(1, 1, 1, false)),
        ],
    ),
    (
        "an answer that one member gains and another loses isn't in the delta of their union",
        &[
            (2, Fills),
            (
                1,
                Says(
                    b"rel r int\nrel s int\nquery a(x) <- r(x)\nquery b(x) <- s(x)\nunion u a b\n",
                ),
            ),
            (1, IsTold(b"ok\nok\nok query 3\nok query 3\nok union 8\n")),
            (2, Says(b"add r 1\nadd r 3\nwatch u\n")),
            (2, IsTold(b"ok added 1 1\nok added 2 1\nok watch 2\n")),
            (
                1,
                Says(b"batch\nadd s 1\ndel r 1\nadd s 2\ndel r 3\ndone\n"),
            ),
            (
                2,
                TakesEither(b"- u 3\n+ u 2\nat u 3\n", b"+ u 2\n- u 3\nat u 3\n"),
            ),
            (
                1,
                IsTold(b"ok batch\nok held 1\nok held 2\nok held 3\nok held 4\nok done 3 4\n"),
            ),
            (1, Says(b"batch\ndel s 1\nadd r 1\nadd r 2\ndone\n")),
            (2, IsTold(b"at u 4\n")),
            (2, Says(b"has u 1\nhas u 2\nhas u 3\n")),
            (2, IsTold(b"yes\nyes\nno\n")),
        ],
    ),
    (
        "lines that a batch holds as its session leaves are reported",
        &[
            (3, Fills),
            (1, Says(b"rel r int\nbatch\nadd r 1\nquit\n")),
            (1, IsTold(b"ok\nok batch\nok held 1\nerr 18 batch\nbye\n")),
            (2, Says(b"batch\nquit\n")),
            (2, IsTold(b"ok batch\nbye\n")),
            (3, Says(b"batch\ndel r 1\nstop\n")),
            (3, IsTold(b"ok batch\nok held 1\nerr 18 batch\nbye\n")),
            (1, Counts(0, 0, 3, true)),
        ],
    ),
    (
        "the lines of several steps are one commit, with a transaction whole",
        &[
            (2, Fills),
            (1, Commits(b"rel r int\nadd r 7\ndel r 9\nadd r 8\n")),
            (1, Keeps(&[b"rel r int", b"add r 7", b"add r 8"])),
            (1, Commits(b"batch\nadd r 1\ndel r 7\n")),
            (1, Keeps(&[])),
            (2, Commits(b"add r 2\n")),
            (2, Keeps(&[b"add r 2"])),
            (1, Commits(b"done\nadd r 3\nhas q 3\n")),
            (
                1,
                Keeps(&[b"batch", b"add r 1", b"del r 7", b"done", b"add r 3"]),
            ),
        ],
    ),
    (
        "what lines that were loaded left is found, and loading goes on behind it",
        &[
            (0, Loads(b"rel r int text", Loaded::Ran)),
            (0, Loads(b"add r 1 \"a\"", Loaded::Ran)),
            (0, Loads(b"add r 1 \"a\"", Loaded::Ran)),
            (0, Loads(b"add r 2 \"b\"", Loaded::Ran)),
            (0, Loads(b"del r 1 \"a\"", Loaded::Ran)),
            (0, Loads(b"query q(x,t) <- r(x,t)", Loaded::Ran)),
            (0, Loads(b"query p(x) <- r(x,\"a\")", Loaded::Ran)),
            (0, Loads(b"query o(x) <- r(x,_)", Loaded::Ran)),
            (0, Loads(b"union u o p", Loaded::Ran)),
            (0, Loads(b"drop u", Loaded::Ran)),
            (0, Loads(b"drop p", Loaded::Ran)),
            (0, Loads(b"batch", Loaded::Ran)),
            (0, Loads(b"del r 2 \"b\"", Loaded::Ran)),
            (0, Loads(b"add r 2 \"b\"", Loaded::Ran)),
            (0, Loads(b"done", Loaded::Ran)),
            (0, Loads(b"batch", Loaded::Ran)),
            (0, Loads(b"del r 3 \"a\"", Loaded::Ran)),
            (0, Loads(b"done", Loaded::Refused)),
            (0, Loads(b"rel r int", Loaded::Refused)),
            (0, Loads(b"add r 1", Loaded::Refused)),
            (0, Loads(b"del r 3 \"a\"", Loaded::Refused)),
            (0, Loads(b"drop p", Loaded::Refused)),
            (0, Loads(b"union u o q", Loaded::Refused)),
            (0, Loads(b"has q 1 \"a\"", Loaded::Refused)),
            (0, Loads(b"stop", Loaded::Refused)),
            (0, Loads(b"", Loaded::Refused)),
            (
                0,
                Loads(b"add r 99999999999999999999 \"a\"", Loaded::Refused),
            ),
            (0, Keeps(&[])),
            (0, Counts(2, 2, 0, false)),
            (1, Opens),
            (1, Says(b"open c q\nnext c 3\ndel r 1 \"a\"\n")),
            (
                1,
                IsTold(b"ok open\n= 1 \"a\"\n= 2 \"b\"\nend\nok removed 3 0\n"),
            ),
            (1, Closes),
            (0, Loads(b"drop q", Loaded::Ran)),
            (0, Counts(3, 1, 0, false)),
        ],
    ),
];
