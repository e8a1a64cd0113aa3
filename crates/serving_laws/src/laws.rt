// Laws about whole runs of the host, over a link and over a port: what its replies may say, and what it keeps.
ghost use Rattle.std.specs.Prelude.{◌≡◌, ◌↔◌, ◌⊎◌, ℕ, List, ◌++◌, None, Option, true, false};
ghost use Rattle.split_base.specs.Disk.{Each};
ghost use Rattle.split_base.specs.Faults.{HasRisen};
ghost use Rattle.host_journal.specs.States.{IsFile, State, host_in};
ghost use Rattle.serving.specs.declared.limits.TheConstants.{MAX_REQUESTS};
ghost use Rattle.serving.specs.declared.ends.LinkEnd.TheVariants as ends;
ghost use Rattle.serving.specs.Dues.{DueView};
ghost use Rattle.serving.specs.Ends.{Ending, end_as};
ghost use Rattle.serving.specs.Exchanges.{Answered, Exchange, IsExchange, LinkExchanges};
ghost use Rattle.serving.specs.Runs.{LinkRun};
ghost use Rattle.serving.specs.Served.{CountsEnd, LinkView};
ghost use Rattle.reply_texts.specs.Contents.{memory_told};
ghost use Rattle.serving.specs.Serving.{host_service};
ghost use Rattle.serving_laws.specs.Accepting.{Accepts};
ghost use Rattle.serving_laws.specs.Crashes.{Acknowledges, Since};
ghost use Rattle.serving_laws.specs.Handling.{AreHandled, IsHandled};
ghost use Rattle.serving_laws.specs.Integrity.{KeepsIntegrity};
ghost use Rattle.serving_laws.specs.Heard.{IsStep, IsUnrouted, Taken, TakesSteps, WaitsByStep, asked_of, got_all, replied_of};
ghost use Rattle.serving_laws.specs.Last.{EndsAfter, IsMemoryReply, IsPlainReply, IsWritten, Last, LinkEnds, end_by};
ghost use Rattle.sealed_core.specs.declared.commands.Ask.{Ask};
ghost use Rattle.sealed_core.specs.Host.{HostView};
ghost use Rattle.sealed_core.specs.Sealed.{Asked, Caller, RunAlike, caller_number, host_after, is_closed, view};
ghost use Rattle.sealed_core.specs.Veil.{LookAlike};
ghost use Rattle.sealed_core.specs.Step.{To};
ghost use Rattle.serving_laws.specs.Pairs.{ArePairs, GetsSame};
ghost use Rattle.serving_laws.specs.Sealing.{AsksOf};
ghost use Rattle.serving_laws.specs.Writing.{AnswerAlike, Answering, IsDone, OneState, answering_so};

use reply_texts::text_sealing_law;
use requests::{sent_sealing_law, step_reply_law};
use sealed_core::{machine_law, publication_law, sameness_law};
use serving::link_law;
use split_base::Disk;
use split_http::{cut_law, reply_law};

/// How the run of a link ends depends on what came last on it, after its requests. It is `Ended` exactly when no byte was left where a head would begin, or
/// where the last thing was a reply that was written, closed the connection and wasn't the memory reply; `Cut` exactly when the input ended within the body of a
/// head that isn't refused; `Memory` exactly when the memory reply was the last thing and was written; and `LinkFault` exactly when a call of the link failed,
/// so only if a count of the link has risen.
pub fn ends_law<D: Disk>()
    ensures last { (n : ℕ) (all : List ℕ) (answers : List (Option ℕ)) (w : D × State) (out : List ℕ)
        (new : D × State) (end : Ending) → LinkRun (host_service D.Disk) n all answers w out new end
        → LinkEnds (host_service D.Disk) all answers w out new end }
    ensures behind { (all : List ℕ) (answers : List (Option ℕ)) (w : D × State) (out : List ℕ)
        (new : D × State) (end : Ending)
        (link : LinkExchanges (host_service D.Disk) all answers w out new end)
        → EndsAfter link.exchanges (host_service D.Disk) all answers w out new end }
    ensures ended { (last : Last) → (end_by last ≡ ends.Ended)
        ↔ ((last ≡ Last.nothing_left) ⊎ IsPlainReply last) }
    ensures cut { (last : Last) → (end_by last ≡ ends.Cut) ↔ (last ≡ Last.body_cut) }
    ensures memory { (last : Last) → (end_by last ≡ ends.Memory) ↔ IsMemoryReply last }
    ensures fault { (last : Last) → (end_by last ≡ ends.LinkFault)
        ↔ ((last ≡ Last.read_failed) ⊎ (last ≡ Last.write_failed)) }
    ensures said { (due : DueView) (w : D × State) (all : List ℕ) (answers : List (Option ℕ))
        (out : List ℕ) (new : D × State) → IsWritten (host_service D.Disk) due w all answers out new
        → due.said.memory ≡ true → due.said ≡ memory_told }
    ensures counted { (link now : LinkView) (ending : Ending) → end_as ending ≡ ends.LinkFault
        → CountsEnd link now ending
        → HasRisen link.reads now.reads ⊎ HasRisen link.writes now.writes }
{
    link_law::<D>();
    step_reply_law();
}

/// On an honest disk a crash at any moment since a request was answered leaves a file of the state that it left or of one that came later,
/// with or without the event that is being appended.
pub fn crash_law<D: Disk>()
    ensures { (w : D × State) (run : List (Exchange (D × State))) (new : D × State)
        → Answered (host_service D.Disk) w run new → D.is_honest w.0
        → Each (D.images w.0) (IsFile w.1) → Since D.Disk new.0 w run }
{}

/// On an honest disk each event that a run keeps was made by a command of this run, or it waited before.
pub fn accepted_law<D: Disk>()
    ensures { (w : D × State) (run : List (Exchange (D × State))) (new : D × State)
        → Answered (host_service D.Disk) w run new → D.is_honest w.0 → Accepts run w.1 new.1 }
{}

/// On an honest disk each event that was kept when a request was answered is in whatever a crash may leave since then, at its place: each
/// image begins with all of them.
pub fn acknowledged_law<D: Disk>()
    ensures { (w : D × State) (run : List (Exchange (D × State))) (new : D × State)
        → Answered (host_service D.Disk) w run new → D.is_honest w.0
        → Each (D.images w.0) (IsFile w.1) → Acknowledges D.Disk new.0 w run }
{}

/// A request is handled at one state, whatever the disk: the state as it was, or as its file was opened if it waited. If the disk reveals its bytes, that file
/// held just the events of that state; on an honest disk they are those kept before, with the one that waited or without it. All of this holds of that one
/// state.
///
/// - The request changes it by at most one event, which its own step makes. The event is kept; or the disk failed in its append, which the reply says, and the
///   event waits.
/// - The request is answered: its path or method is refused; or it has the reply of the machine's step there, whose event, if it makes one, was kept; or memory
///   ran out, for a body that is read or for what is published of an instance that is closed or past its deadline, and for nothing else. Or a call of the disk
///   failed in it, and the reply says so. Or the file of a host that waited isn't a journal: then the place of its first fault is given, wherever the disk
///   reveals its bytes; this never happens on an honest disk.
/// - If it doesn't succeed, it changes nothing, except by the Close of the instance that it asks about if the deadline of that has passed; or its own event
///   waits.
/// - About an instance that isn't closed after it, its reply says no more than what the caller may know; or it isn't the reply of a step. So the reply to a
///   status, an own bid or a close says what the caller may know, or reports a fault of the store.
/// - A bid or a withdrawal that it makes was sent under its member's key.
///
/// This is true of each request of a run; and on an honest disk the run goes by steps of the machine from those same states: a request takes one, or none if its
/// reply isn't that of a step, as when its path or method is refused, the store failed or memory ran out; and before it the step of an event that waited is
/// taken, if the file that is opened again has it.
pub fn handled_law<D: Disk>()
    ensures one { (x : Exchange (D × State)) → IsExchange (host_service D.Disk) x
        → (settled : State) × IsHandled D.Disk x settled }
    ensures run { (w : D × State) (run : List (Exchange (D × State))) (new : D × State)
        → Answered (host_service D.Disk) w run new
        → (states : List State) × AreHandled D.Disk run states
        × (D.is_honest w.0 → WaitsByStep w.1 → (steps : List Taken) × TakesSteps run states steps) }
{
    machine_law();
    publication_law();
    sameness_law();
    sent_sealing_law();
}

/// On an honest disk each bid and each withdrawal that is kept after a run, which began with a host that was ready, was kept before it, or was sent by a
/// request of the run under the key of its member, as it is kept.
pub fn integrity_law<D: Disk>()
    ensures { (w : D × State) (run : List (Exchange (D × State))) (new : D × State)
        → Answered (host_service D.Disk) w run new → D.is_honest w.0 → w.1.waiting ≡ None
        → KeepsIntegrity run w.1 new.1 }
{
    machine_law();
    sameness_law();
}

/// Over the same bytes and answers of the clock, if the machine with its disk and its memory answers each request in one way, a link on which no call fails gets
/// the same bytes and ends alike. So neither the pieces in which its bytes come nor the number of workers affects what it gets.
///
/// Suppose that hosts in the same state answer alike: over the same bytes, and answers of the clock that are the same as far as both take some, a link at either
/// on which no call fails, while no call of the disk fails and memory suffices, gets the same bytes and ends alike; the hosts come to one state, and have taken
/// as many answers.
pub fn writing_law<D: Disk>()
    ensures one { (answer : Answering D) (all : List ℕ) (answers : List (Option ℕ)) (w : D × State)
        (out told : List ℕ) (new after : D × State) (end stop : Ending) → IsDone end → IsDone stop
        → LinkRun (answering_so D.Disk answer) MAX_REQUESTS all answers w out new end
        → LinkRun (answering_so D.Disk answer) MAX_REQUESTS all answers w told after stop
        → (out ≡ told) × (new ≡ after) × (end ≡ stop) }
    ensures alike { AnswerAlike D.Disk
        → (all : List ℕ) (answers others more besides : List (Option ℕ)) (w v : D × State)
        (out told : List ℕ) (new after : D × State) (end stop : Ending) → OneState w v
        → answers ++ more ≡ others ++ besides → IsDone end → IsDone stop
        → (HasRisen (D.faults w.0) (D.faults new.0) → ⊥)
        → (HasRisen (D.faults v.0) (D.faults after.0) → ⊥)
        → LinkRun (host_service D.Disk) MAX_REQUESTS all answers w out new end
        → LinkRun (host_service D.Disk) MAX_REQUESTS all others v told after stop
        → (out ≡ told) × OneState new after × (end ≡ stop) × (answers ≡ others) }
{
    cut_law();
    reply_law();
}

/// Bids are sealed in what a link gets. If an instance isn't closed after a command on it, two requests of this command at one moment, at hosts of which the
/// caller may know the same, have replies of one status and one text. What a single reply says is in `handled_law`.
pub fn sealed_law<D: Disk>()
    ensures { (x y : Exchange (D × State)) (id : ℕ) (key : Option (List ℕ)) (ask : Ask)
        (g h : HostView) → AsksOf x id key ask g → AsksOf y id key ask h → x.moment ≡ y.moment
        → view g id (caller_number g id key) ≡ view h id (caller_number h id key)
        → is_closed (host_after g x.moment (To id key ask)) id ≡ false
        → (x.due.said.status ≡ y.due.said.status) × (x.due.said.text ≡ y.due.said.text) }
{
    sent_sealing_law();
}

/// Bids are sealed in whole runs of requests, as they happen: on an honest disk each run goes by steps of the machine (`handled_law`).
///
/// Take two runs, from hosts that differ only in what people other than the caller have bid on the instance, and what anyone has bid on other instances, as two
/// hosts with empty journals or two that were started again. Let their steps be equal pair by pair, except that a pair may be two such bids, by the same member
/// on the same instance at the same moment, each of them kept; and let steps of a pair both have replies or both none. Then the caller gets the same status and
/// text in reply to each of their own commands on the instance in both, up to the step at which it is closed (`got`).
///
/// The same is true when requests are compared instead of steps (`same`). Take two such runs on honest disks, from hosts at which no event waits. Let their
/// requests be equal pair by pair, except that a pair may be two such bids. Let the store do the same in both requests of a pair: the file of a host that waits
/// is opened in both or in neither, with the event that waited in both or in neither, and an event waits after both or after neither. And if a body is read, or
/// the result of an instance that is closed or past its deadline is due, let memory run out in both or in neither. Then the steps are alike, the caller gets the
/// same, and each reply that isn't that of a step is the same in both, whoever gets it. For any other request nothing is required of memory, since it can't run
/// out there.
///
/// A request at a host that is ready goes by a step, or its path or method is refused, if no call of the disk failed in it and memory didn't run out.
pub fn sealed_runs_law<D: Disk>()
    ensures got { (id : ℕ) (caller : Caller) (run others : List (Exchange (D × State)))
        (states twins : List State) (steps besides : List Taken) (w v new after : D × State)
        → Answered (host_service D.Disk) w run new → Answered (host_service D.Disk) v others after
        → LookAlike id caller (host_in w.1) (host_in v.1) → TakesSteps run states steps
        → TakesSteps others twins besides
        → RunAlike (host_in w.1) (host_in v.1) id caller (asked_of steps) (asked_of besides)
        → replied_of steps ≡ replied_of besides
        → got_all (host_in w.1) id caller steps ≡ got_all (host_in v.1) id caller besides }
    ensures same { (id : ℕ) (caller : Caller) (run others : List (Exchange (D × State)))
        (states twins : List State) (w v new after : D × State)
        → Answered (host_service D.Disk) w run new → Answered (host_service D.Disk) v others after
        → D.is_honest w.0 → D.is_honest v.0 → w.1.waiting ≡ None → v.1.waiting ≡ None
        → LookAlike id caller (host_in w.1) (host_in v.1) → AreHandled D.Disk run states
        → AreHandled D.Disk others twins → ArePairs id caller run others states twins
        → GetsSame id caller (host_in w.1) (host_in v.1) run others states twins }
    ensures step { (x : Exchange (D × State)) → IsExchange (host_service D.Disk) x
        → x.before.1.waiting ≡ None → (HasRisen (D.faults x.before.0) (D.faults x.after.0) → ⊥)
        → x.due.said.memory ≡ false → IsUnrouted x ⊎ ((a : Asked) × IsStep x a) }
{
    machine_law();
    sent_sealing_law();
    step_reply_law();
    text_sealing_law();
}
