//! Laws of worlds that are reached. Nothing here has a body; what holds is in the contracts.
ghost use Rattle.std.specs.Prelude.{◌≡◌, ◌⊎◌, ◌<◌, ◌+◌, ◌++◌, ◌∷◌, [], Bool, ℕ, Some};
ghost use Rattle.ent_lists.specs.Elements.{In};
ghost use Rattle.ent_waiting.specs.Laws.{AreOrdered, HasItsGroups, HasThisEnding, IsAhead, IsLevel};
ghost use Rattle.ent_waiting.specs.Laws.{IsUntold, StandsOnce, Tells, WentThrough, ended_of};
ghost use Rattle.ent_waiting.specs.Room.{StandByTicket, waiting_in, was_put};
ghost use Rattle.ent_waiting.specs.Run.{RunsThrough};
ghost use Rattle.ent_waiting.specs.Step.{IsReached, Leads};
ghost use Rattle.ent_waiting.specs.Store.{Ended, Version, Waiter, Write};
ghost use Rattle.ent_waiting.specs.World.{Claimant, World, asked, without};
ghost use Rattle.ent_waiting.specs.WaitingList.{WaitingList, admitted, changed, ending_as, waiter_of};
ghost use Rattle.ent_waiting.specs.declared.ended.Ending.{Ending};
ghost use Rattle.ent_waiting.specs.declared.waiter.Waiter.{Waiter as Entry};

/// The store's tables are the first ones after the groups that it has, in the order of their numbers, each exactly
/// once; the numbers go from 1 without a gap. Its ended tickets are those of the writes that went through, in order.
pub fn tables_are_those_after_groups<T, C, S, E>()
    ensures groups { (changed : C → T → T) (tables : T) (world : World T C S E)
        → IsReached changed tables world
        → HasItsGroups changed tables world }
    ensures ended { (changed : C → T → T) (tables : T) (world : World T C S E)
        → IsReached changed tables world
        → world.store.ended ≡ ended_of world }
{}

/// The writes that went through are numbered from 1 without a gap, and no claimant writes after a later one did. What a
/// claimant was acknowledged went through, and no two claimants were acknowledged a write of the same number.
pub fn writes_are_ordered<T, C, S, E>()
    ensures ordered { (changed : C → T → T) (tables : T) (world : World T C S E)
        → IsReached changed tables world
        → AreOrdered world }
    ensures acknowledged { (changed : C → T → T) (tables : T) (world : World T C S E) (known : Version)
        → IsReached changed tables world
        → In known world.acknowledged
        → WentThrough world known }
    ensures apart { (changed : C → T → T) (tables : T) (world : World T C S E) (known other : Version)
        → IsReached changed tables world
        → In known world.acknowledged
        → In other world.acknowledged
        → known.write ≡ other.write
        → known.claim ≡ other.claim }
{}

/// Each ticket that anybody was told waits in the store with the script that was put, or has ended there, and not both;
/// so for ever.
pub fn told_tickets_stand<T, C, S, E>()
    ensures stands { (changed : C → T → T) (tables : T) (world : World T C S E) (waiter : Waiter S)
        → IsReached changed tables world
        → In waiter world.tickets
        → StandsOnce world.store waiter }
    ensures stays { (changed : C → T → T) (tables : T) (world later : World T C S E) (waiter : Waiter S)
        → IsReached changed tables world
        → In waiter world.tickets
        → Leads changed world later
        → StandsOnce later.store waiter }
{}

/// How a ticket ended, where anybody was told so, stands in the store, and so for ever: it never ends otherwise, nor
/// waits again.
pub fn told_endings_stand<T, C, S, E>()
    ensures stands { (changed : C → T → T) (tables : T) (world : World T C S E) (one : Ended E)
        → IsReached changed tables world
        → In one world.endings
        → HasThisEnding world.store one }
    ensures stays { (changed : C → T → T) (tables : T) (world later : World T C S E) (one : Ended E)
        → IsReached changed tables world
        → In one world.endings
        → Leads changed world later
        → HasThisEnding later.store one }
{}

/// The claimant whose claim stands has the store's tables in memory: after its own groups, which follow on those of the
/// store, as long as the write that it sends them in didn't go through.
pub fn memory_stands_on_the_store<T, C, S, E>()
    ensures { (changed : C → T → T) (tables : T) (world : World T C S E) (own : Claimant T C S E)
        → IsReached changed tables world
        → world.claimants world.store.claim ≡ Some own
        → IsAhead changed world.store own ⊎ IsLevel world.store own }
{}

/// What ended in the memory of the claimant whose claim stands, by a commit too, and isn't written, nobody was told.
/// The ticket still waits in the store; or it was given out in memory alone, and nobody was told it.
pub fn unwritten_endings_are_untold<T, C, S, E>()
    ensures { (changed : C → T → T) (tables : T) (world : World T C S E) (own : Claimant T C S E)
        (one : Ended E)
        → IsReached changed tables world
        → world.claimants world.store.claim ≡ Some own
        → world.store.write ≡ own.write
        → In one own.ended
        → IsUntold world one.ticket }
{}

/// After a lost acknowledgement the store's version tells a claimant what became of the write that it sent last: it
/// went through if the store ever had the claimant's claim and that write. As long as its claim stands, the store has
/// this version, or that of the write before; then the write didn't go through, and is to be sent again.
pub fn versions_tell_what_went_through<T, C, S, E>()
    ensures through { (changed : C → T → T) (tables : T) (world : World T C S E) (claim : ℕ)
        (own : Claimant T C S E)
        → IsReached changed tables world
        → world.claimants claim ≡ Some own
        → In (record { claim = claim; write = own.write + 1 }) world.versions
        → In (asked claim own) world.history }
    ensures now { (changed : C → T → T) (tables : T) (world : World T C S E) (own : Claimant T C S E)
        → IsReached changed tables world
        → world.claimants world.store.claim ≡ Some own
        → Tells world world.store.claim own }
{}

/// What an earlier claimant sent, and didn't get through before the store was claimed anew, is never written.
pub fn earlier_claimants_are_fenced_off<T, C, S, E>()
    ensures { (changed : C → T → T) (world later : World T C S E) (write : Write C S E)
        → write.claim < world.store.claim
        → (In write world.history → ⊥)
        → Leads changed world later
        → In write later.history
        → ⊥ }
{}

/// The waiting list of a room goes on as that of a claimant does: who is put comes behind the others under the next
/// ticket, and who ends is there no more. Any other change of who waits that keeps script and patience makes no
/// difference.
pub fn waiting_lists_go_on_so()
    ensures put { (list : WaitingList) (entry : Entry)
        → StandByTicket list
        → waiting_in (admitted list.next entry list)
        ≡ waiting_in list ++ record { ticket = list.next; script = was_put entry } ∷ [] }
    ensures ended { (list : WaitingList) (ticket : ℕ) (ending : Ending) (counts : Bool) (entry : Entry)
        → StandByTicket list
        → waiting_in (ending_as ticket ending counts entry list) ≡ without ticket (waiting_in list) }
    ensures same { (list : WaitingList) (ticket : ℕ) (old new : Entry)
        → waiter_of list ticket ≡ Some old
        → was_put new ≡ was_put old
        → waiting_in (changed ticket new list) ≡ waiting_in list }
{}

/// The laws aren't empty: there are steps by which a process crashes with a write on its way, and another one goes on
/// from the store, sends its write twice and tells what was written.
pub fn two_processes_share_a_store<T, C, S, E>()
    ensures { (changed : C → T → T) (tables : T) (script : S) (change : C) (ending : E)
        → RunsThrough changed tables script change ending }
{}
