//! The steps of a turn lock, on the seat of a pass.
ghost use Rattle.std.specs.Prelude.{◌≡◌, ◌≤◌, ◌-◌, length, true, false, [], ◌∷◌, Some, None, IfSome, IfNone};
ghost use Rattle.rkt_turn.specs.Booked.{InOneOrder, StartsWith};
ghost use Rattle.rkt_turn.specs.Known.{AddsOwn, last_number, entered, gave, drew, another, joined, view};
ghost use Rattle.rkt_turn.specs.TurnRule.{Took};

use crate::booked::Booked;
use crate::known::{Draw, Give, Known, Settle, Take, TakeIn, TurnRule};
use atomic_table::{Seat, Shared, Table};
use std::alloc::Global;
use std::hint::spin_loop;
use std::sync::Wait;
use std::sync::atomic::{AtomicBool, Ordering};
use std::time::Duration;

// How often a thread looks at the word before it sleeps.
const SPINS: usize = 100;

// A wake that comes between a look and a sleep is lost, so no sleep is longer than so many milliseconds.
const LONGEST_SLEEP: u64 = 10;

// Takes the turn where nobody has it, and the state out of the slot.
pub(crate) fn try_take<S: Booked>(
    shared: &Shared<Option<S>, Known<S::Name, S::Entry>, S::Name, TurnRule>,
    seat: &mut Seat<Option<S>, Known<S::Name, S::Entry>>,
    number: u64,
) -> Option<S>
    requires own { seat.old.table_id ≡ shared.now.table_id }
    requires word { shared.now.table_id.words ≡ 1 }
    requires live { (view seat.old).spent ≡ false }
    requires opened { (view seat.old).opened ≡ true }
    requires number { (view seat.old).number ≡ number }
    requires small { number ≤ last_number }
    requires free { seat.old.me.1 ≡ [] }
    ensures own { seat.new.table_id ≡ seat.old.table_id }
    ensures me { IfSome result (λ x. seat.new.me ≡ (entered (view seat.old) (S.entries x), (0, None) ∷ [])) }
    ensures took { IfSome result (Took S.name S.entries S.legal S.keeps S.number (view seat.old)) }
    ensures same { IfNone result (seat.new.me ≡ seat.old.me) }
{
    let found = shared.compare_exchange::<Take>(seat, 0, 0, number + 1);
    if found != 0 {
        return None;
    }
    match shared.exchange(seat, 0, None) {
        Some(state) => Some(state),
        None => unreachable!(),
    }
}

// Waits until the turn may be free: looks a few times, and then sleeps. Who has slept says again that threads wait, so
// that the next thread is woken after it.
fn wait<S: Booked, R: Wait>(
    rt: &R,
    shared: &Shared<Option<S>, Known<S::Name, S::Entry>, S::Name, TurnRule>,
    waited: &AtomicBool,
)
    requires { shared.now.table_id.words ≡ 1 }
{
    for _ in 0..SPINS {
        if shared.peek(0) == 0 {
            return;
        }
        spin_loop();
    }
    waited.store(true, Ordering::SeqCst);
    let found = shared.peek(0);
    if found != 0 {
        let low = (found & 0xffff_ffff) as u32;
        shared.park_timeout(rt, 0, low, Duration::from_millis(LONGEST_SLEEP));
        waited.store(true, Ordering::SeqCst);
    }
}

// Waits for the turn, and takes the state out of the slot.
pub(crate) fn take<S: Booked, R: Wait>(
    rt: &R,
    shared: &Shared<Option<S>, Known<S::Name, S::Entry>, S::Name, TurnRule>,
    waited: &AtomicBool,
    seat: &mut Seat<Option<S>, Known<S::Name, S::Entry>>,
    number: u64,
) -> S
    requires own { seat.old.table_id ≡ shared.now.table_id }
    requires word { shared.now.table_id.words ≡ 1 }
    requires live { (view seat.old).spent ≡ false }
    requires opened { (view seat.old).opened ≡ true }
    requires number { (view seat.old).number ≡ number }
    requires small { number ≤ last_number }
    requires free { seat.old.me.1 ≡ [] }
    ensures own { seat.new.table_id ≡ seat.old.table_id }
    ensures me { seat.new.me ≡ (entered (view seat.old) (S.entries result), (0, None) ∷ []) }
    ensures took { Took S.name S.entries S.legal S.keeps S.number (view seat.old) result }
{
    for _ in rt.forever() {
        if let Some(state) = try_take(shared, seat, number) {
            return state;
        }
        wait(rt, shared, waited);
    }
    unreachable!()
}

// Puts the state into the slot, and gives the turn.
pub(crate) fn give<S: Booked>(
    shared: &Shared<Option<S>, Known<S::Name, S::Entry>, S::Name, TurnRule>,
    waited: &AtomicBool,
    seat: &mut Seat<Option<S>, Known<S::Name, S::Entry>>,
    state: S,
)
    requires own { seat.old.table_id ≡ shared.now.table_id }
    requires word { shared.now.table_id.words ≡ 1 }
    requires live { (view seat.old).spent ≡ false }
    requires turn { (view seat.old).turn ≡ true }
    requires slot { seat.old.me.1 ≡ (0, None) ∷ [] }
    requires name { (view seat.old).name ≡ Some (S.name state) }
    requires legal { S.legal (S.name state) (S.entries state) }
    requires keeps { S.keeps state }
    requires adds { AddsOwn S.number (view seat.old) (S.entries state) }
    ensures own { seat.new.table_id ≡ seat.old.table_id }
    ensures me { seat.new.me ≡ (gave (view seat.old) (S.entries state), []) }
{
    let nothing = shared.exchange(seat, 0, Some(state));
    let None = nothing else { unreachable!() };
    shared.store::<Give>(seat, 0, 0);
    if waited.load(Ordering::SeqCst) {
        waited.store(false, Ordering::SeqCst);
        shared.wake_one(0);
    }
}

// Makes a seat with the next number.
pub(crate) fn draw<S: Booked>(
    shared: &Shared<Option<S>, Known<S::Name, S::Entry>, S::Name, TurnRule>,
    seat: &mut Seat<Option<S>, Known<S::Name, S::Entry>>,
) -> Seat<Option<S>, Known<S::Name, S::Entry>>
    requires own { seat.old.table_id ≡ shared.now.table_id }
    requires word { shared.now.table_id.words ≡ 1 }
    requires live { (view seat.old).spent ≡ false }
    requires first { (view seat.old).number ≡ 0 }
    requires idle { (view seat.old).turn ≡ false }
    requires opened { (view seat.old).opened ≡ true }
    requires next { (view seat.old).next ≤ last_number }
    ensures own { (seat.new.table_id ≡ seat.old.table_id) × (result.table_id ≡ seat.old.table_id) }
    ensures me { (seat.new.me ≡ (drew (view seat.old), seat.old.me.1)) × (result.me ≡ (another (view seat.old), [])) }
{
    shared.split_seat::<Draw>(seat)
}

// Takes another seat in. A join tells nothing, so a load compares what the two have seen.
pub(crate) fn rejoin<S: Booked>(
    shared: &Shared<Option<S>, Known<S::Name, S::Entry>, S::Name, TurnRule>,
    seat: &mut Seat<Option<S>, Known<S::Name, S::Entry>>,
    other: Seat<Option<S>, Known<S::Name, S::Entry>>,
)
    requires own { seat.old.table_id ≡ shared.now.table_id }
    requires other_own { other.table_id ≡ shared.now.table_id }
    requires word { shared.now.table_id.words ≡ 1 }
    requires live { (view seat.old).spent ≡ false }
    requires first { (view seat.old).number ≡ 0 }
    requires idle { (view seat.old).turn ≡ false }
    requires other_live { (view other).spent ≡ false }
    requires other_idle { (view other).turn ≡ false }
    requires other_free { other.me.1 ≡ [] }
    ensures own { seat.new.table_id ≡ seat.old.table_id }
    ensures me { seat.new.me ≡ (joined (view seat.old) (view other), seat.old.me.1) }
    ensures out { length (view seat.new).out ≡ length (view seat.old).out - 1 }
    ensures one_order { InOneOrder (view seat.old).seen (view other).seen }
    ensures seen { StartsWith (view seat.new).seen (view seat.old).seen }
    ensures other_seen { StartsWith (view seat.new).seen (view other).seen }
{
    shared.join_seat::<TakeIn>(seat, other);
    shared.load::<Settle>(seat, 0);
}

// Takes the state out at the end.
pub(crate) fn finish<S: Booked>(
    table: Table<Option<S>, Known<S::Name, S::Entry>, S::Name, TurnRule, Global>,
    seat: Seat<Option<S>, Known<S::Name, S::Entry>>,
) -> S
    requires own { seat.table_id ≡ table.shared.table_id }
    requires word { table.shared.table_id.words ≡ 1 }
    requires slot { table.shared.table_id.slots ≡ 1 }
    requires live { (view seat).spent ≡ false }
    requires first { (view seat).number ≡ 0 }
    requires idle { (view seat).turn ≡ false }
    requires opened { (view seat).opened ≡ true }
    requires out { (view seat).out ≡ [] }
    ensures took { Took S.name S.entries S.legal S.keeps S.number (view seat) result }
{
    let mut closed = table.close_with(seat);
    let slot = closed.take(0);
    closed.free();
    match slot {
        Some(state) => state,
        None => unreachable!(),
    }
}
