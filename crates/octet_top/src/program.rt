//! The top calls: words in, an exit status out.
ghost use Rattle.std.specs.Prelude.{◌≡◌, ◌⊎◌, None};
ghost use Rattle.octet_base.specs.Desk.{Contents};
ghost use Rattle.octet_commands.specs.declared.reply.Status.{Status};
ghost use Rattle.octet_commands.specs.declared.reply.Status.TheVariants.{Memory};
ghost use Rattle.octet_commands.specs.Answer.{code_of};
ghost use Rattle.octet_commands.specs.Request.{texts, request_in};
ghost use Rattle.octet_top.specs.Causes.{IsCause, IsDue, MayDiffer, NoneFailed};
ghost use Rattle.octet_top.specs.Effects.{IsStatus, Leaves, CutsRun, KeepsOthers, KeepsFiles, CountsFailures, IsCompleted, IsWellMet};
ghost use Rattle.octet_top.specs.Serving.{IsServed};
ghost use Rattle.octet_top.specs.Headline.{RunsFaithfully};
ghost use Rattle.octet_top.specs.Searches.{CutsOff, FindsOutcomes, RefutesAlways, ShowsAlways};
ghost use Rattle.octet_top.specs.Promises.{RunsAsPicked, RunsWithExactTotals, VerifiesOrdered, ReplaysOnThreads, FindsRegions, RepeatsRecordings, SlicesPasts, StopsAtFirst, TracesOrders, TracesMisfits, ConvertsLogs, GeneratesFaithfully, HuntsFaithfully};

use crate::with_runtime::serve_request;
use octet_base::Desk;
use octet_commands::{deliver, reply_alone, request_of};
use octet_threads::HeapGate;
use std::alloc::Global;
use std::sync::Wait;
use std::thread::Threads;

/// Does what the words of a command line say, over the desk, and answers the exit status. The
/// words are those after the program's name.
pub fn serve<R: Threads + Wait + Sync, D: Desk, G: HeapGate>(
    rt: &R,
    alloc: Global,
    words: &[String],
    desk: &mut D,
    gate: &G,
) -> u8
    requires { (D.state desk.old).begun ≡ None }

    // What is read aloud of `run`: status 0 comes with a faithful recording.
    ensures headline { RunsFaithfully (texts words.now) (D.state desk.old) (D.state desk.new) result }

    // Where the words have picks, it is that of a run by these picks.
    ensures played { RunsAsPicked (texts words.now) (D.state desk.old) (D.state desk.new) result }

    // And of its updates: each adds what its thread demands, and an object that is only read and
    // updated ends with its starting value and their sum.
    ensures exact_totals { RunsWithExactTotals (texts words.now) (D.state desk.old) (D.state desk.new) result }

    // Of a log that `verify` calls ordered: all its lawful orders have one outcome. On a desk that
    // tells nothing this binds nothing.
    ensures ordered { VerifiesOrdered (texts words.now) (D.state desk.old) result }

    // Status 0 of `parallel` comes with such a log, and its outcome is said.
    ensures parallel { ReplaysOnThreads (texts words.now) (D.state desk.old) (D.state desk.new) result }

    // Status 0 of `gen` comes with the generated script and a faithful recording of it.
    ensures generated { GeneratesFaithfully (texts words.now) (D.state desk.old) (D.state desk.new) result }

    // A replay of a recording says what was recorded.
    ensures repeats { RepeatsRecordings (texts words.now) (D.state desk.old) (D.state desk.new) result }

    // Status 0 of `slice` comes with the event at the place, and how many events lie in its past.
    ensures sliced { SlicesPasts (texts words.now) (D.state desk.old) (D.state desk.new) result }

    // Status 0 of `stop` comes with the first event that reads the value of the object, or leaves it
    // there, or there is none.
    ensures stopped { StopsAtFirst (texts words.now) (D.state desk.old) (D.state desk.new) result }

    // Status 0 of `trace` comes with all events of the lowest order. Where the log does not fit, those
    // that were made all the same come first, and then why.
    ensures traced { TracesOrders (texts words.now) (D.state desk.old) (D.state desk.new) result }
    ensures traced_misfit { TracesMisfits (texts words.now) (D.state desk.old) (D.state desk.new) result }

    // Status 0 of `convert` comes with the log in version 2, with the digest of the script's text.
    ensures converted { ConvertsLogs (texts words.now) (D.state desk.old) (D.state desk.new) result }

    // Status 0 of `hunt` comes with a faithful recording of a run that is looked for: all its threads
    // are done and the object has another value, or its regions have a cycle.
    ensures hunted { HuntsFaithfully (texts words.now) (D.state desk.old) (D.state desk.new) result }

    // Status 0 of `outcomes` comes with all final heaps of all interleavings, among which is that of
    // each recorded run whose threads are all done. Where no moment is stuck, each leads to an end.
    ensures outcomes { FindsOutcomes (texts words.now) (D.state desk.old) (D.state desk.new) result }

    // Status 13 of it comes with final heaps too. More moments were found than were asked for, or it
    // is said that memory was refused.
    ensures cut_off { CutsOff (texts words.now) (D.state desk.old) (D.state desk.new) result }

    // Status 0 of `always` comes only where the claim holds of every run. Status 14 comes with a
    // faithful recording of one of which it does not hold, or with none, where the script's fuel is said
    // to be short.
    ensures always { ShowsAlways (texts words.now) (D.state desk.old) (D.state desk.new) result }
    ensures otherwise { RefutesAlways (texts words.now) (D.state desk.old) (D.state desk.new) result }

    // Where `regions` finds an order, the regions run one after another in it give the outcome that
    // is said. Where it finds a cycle, the first region of each hop is before the second, and stands in
    // its thread at or after the second region of the next hop, the last hop's next being the first.
    ensures regions { FindsRegions (texts words.now) (D.state desk.old) (D.state desk.new) result }

    // Whatever status comes, its cause holds.
    ensures cause { (status : Status) → result ≡ code_of status → IsCause (texts words.now) (D.state desk.old) (D.state desk.new) status }

    // Where the desk tells its contents and no call fails, the status comes whose cause is the
    // first that is met, unless memory was refused. A hunt may find a run or not, and a search of all
    // interleavings may be cut off.
    ensures due { (contents : Contents) → (D.state desk.old).contents ≡ Some contents → (status : Status) → IsDue (texts words.now) (D.state desk.old).contents status → NoneFailed (D.state desk.old) (D.state desk.new)
        → (result ≡ code_of status) ⊎ ((result ≡ code_of Memory) ⊎ ((other : Status) × MayDiffer (texts words.now) status other × (result ≡ code_of other))) }
    ensures one_due { (contents : Contents) (status other : Status) → IsDue (texts words.now) (Some contents) status → IsDue (texts words.now) (Some contents) other → (status ≡ other) ⊎ MayDiffer (texts words.now) status other }

    // And where all that the words take is as it should be, all is done; but regions may be in a
    // cycle, a slice may be asked for of an event that is not there, a hunt may find nothing, a search
    // may be cut off, and a claim may not hold.
    ensures complete { (contents : Contents) → (D.state desk.old).contents ≡ Some contents → IsWellMet (texts words.now) contents → NoneFailed (D.state desk.old) (D.state desk.new)
        → IsCompleted (texts words.now) result }

    // What is left, whatever status comes: the answer given whole, or cut short, or nothing. Files
    // that the words do not name to be written are as before, and at a refusal all are.
    ensures status { IsStatus result }
    ensures left { Leaves (texts words.now) (D.state desk.old) (D.state desk.new) result }
    // Of `run` that was cut: its file has some first bytes of the log in version 2, with the digest of
    // the script's text, of as many threads as the script has, or is as before; and what was said is
    // some first bytes of the outcome's text after a whole file, or of a refusal's line.
    ensures cut { CutsRun (texts words.now) (D.state desk.old) (D.state desk.new) result }
    ensures others { KeepsOthers (texts words.now) (D.state desk.old) (D.state desk.new) }
    ensures untouched { KeepsFiles (D.state desk.old) (D.state desk.new) result }
    ensures counts { CountsFailures (texts words.now) (D.state desk.old) (D.state desk.new) result }

    // All calls of the desk, in order, and what they leave.
    ensures served { IsServed (request_in (texts words.now)) (D.state desk.old) (D.state desk.new) result }
{
    serve_words(rt, alloc, words, desk, gate)
}

fn serve_words<R: Threads + Wait + Sync, D: Desk, G: HeapGate>(
    rt: &R,
    alloc: Global,
    words: &[String],
    desk: &mut D,
    gate: &G,
) -> u8
    requires { (D.state desk.old).begun ≡ None }
    ensures { IsServed (request_in (texts words.now)) (D.state desk.old) (D.state desk.new) result }
{
    match request_of(words) {
        Some(request) => serve_request(rt, alloc, request, desk, gate),
        None => {
            let reply = reply_alone(alloc, desk, None);
            deliver(alloc, desk, reply)
        }
    }
}
