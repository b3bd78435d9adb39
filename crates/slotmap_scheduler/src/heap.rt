//! The heap of turns, which knows the job that is next.

ghost use Rattle.std.specs.Prelude.{◌≡◌, ◌≢◌, ℕ, ◌+◌, ◌<◌, ◌≤◌, Some, IfSome, IfNone, OnSome, OnOk, OnErr, IsOk, true, length, vec_len, vec_capacity};
ghost use Rattle.std.specs.List.{SwappedAt};
ghost use Rattle.std.specs.FinMap as map;
ghost use Rattle.slotmap.specs.Words.{IsLive, StaysValid, Inserts, Removes, with_value};
ghost use Rattle.slotmap_scheduler.specs.declared.Job.{Job as JobOf};
ghost use Rattle.slotmap_scheduler.specs.Heap.{precedes, up, IsPlaced, IsHeap, IsHeapBut, IsAbove, IsFirstBelow, Resettled, IsIndexed, timed, due_under};

use crate::Job;
use slotmap::{DefaultKey, SlotMap};
use std::alloc::AllocError;

// The jobs under their handles.
pub(crate) type Jobs<T> = SlotMap<DefaultKey, Job<T>>;

// The turn of a job, and its handle.
#[derive(Clone, Copy, Debug, Drop)]
pub(crate) struct Entry {
    pub turn: (u64, u64),
    pub handle: DefaultKey,
}

// Whether a turn is before another.
#[tactic(auto, unfolding(crate::specs::Heap::precedes))]
fn is_before(a: (u64, u64), b: (u64, u64)) -> bool
    ensures { result ≡ precedes a b }
{
    a < b
}

// Exchanges two entries, and notes their places in their jobs.
fn exchange<T: Drop>(jobs: &mut Jobs<T>, heap: &mut Vec<Entry>, a: usize, b: usize)
    requires placed { IsPlaced jobs.old.live heap.old.items }
    requires a_in { a < vec_len heap.old }
    requires b_in { b < vec_len heap.old }
    requires apart { a ≢ b }
    ensures swapped { SwappedAt heap.old.items heap.new.items a b }
    ensures resettled { Resettled jobs.old heap.old jobs.new heap.new }
{
    jobs[heap[a].handle].place = b;
    jobs[heap[b].handle].place = a;
    heap.swap(a, b);
}

// Moves an entry up until no turn above it is after its own, and returns its place.
fn sift_up<T: Drop>(jobs: &mut Jobs<T>, heap: &mut Vec<Entry>, place: usize) -> usize
    requires placed { IsPlaced jobs.old.live heap.old.items }
    requires but { IsHeapBut place heap.old.items }
    requires within { place < vec_len heap.old }
    ensures but { IsHeapBut result heap.new.items }
    ensures above { IsAbove result heap.new.items }
    ensures within { result < vec_len heap.new }
    ensures resettled { Resettled jobs.old heap.old jobs.new heap.new }
{
    let mut at = place;
    while at > 0 {
        let parent = (at - 1) / 2;
        if !is_before(heap[at].turn, heap[parent].turn) {
            return at;
        }
        exchange(jobs, heap, parent, at);
        at = parent;
    }
    at
}

// The child of an entry whose turn is first.
#[tactic(auto, unfolding(crate::specs::Heap::precedes))]
fn first_child(heap: &[Entry], at: usize) -> Option<usize>
    ensures some { IfSome result (λ child. IsFirstBelow at child heap.now) }
    ensures none { IfNone result ((c : ℕ) → 0 < c → up c ≡ at → length heap.now ≤ c) }
{
    if at >= heap.len() / 2 {
        return None;
    }
    let left = 2 * at + 1;
    if left + 1 == heap.len() {
        return Some(left);
    }
    if is_before(heap[left + 1].turn, heap[left].turn) {
        return Some(left + 1);
    }
    Some(left)
}

// Moves an entry down until no turn below it is before its own.
fn sift_down<T: Drop>(jobs: &mut Jobs<T>, heap: &mut Vec<Entry>, place: usize)
    requires placed { IsPlaced jobs.old.live heap.old.items }
    requires but { IsHeapBut place heap.old.items }
    requires above { IsAbove place heap.old.items }
    requires within { place < vec_len heap.old }
    ensures heap { IsHeap heap.new.items }
    ensures resettled { Resettled jobs.old heap.old jobs.new heap.new }
{
    let mut at = place;
    while let Some(child) = first_child(heap, at) {
        if !is_before(heap[child].turn, heap[at].turn) {
            return;
        }
        exchange(jobs, heap, at, child);
        at = child;
    }
}

// Moves the one entry that is out of order to where it belongs in the heap.
fn settle<T: Drop>(jobs: &mut Jobs<T>, heap: &mut Vec<Entry>, place: usize)
    requires placed { IsPlaced jobs.old.live heap.old.items }
    requires but { IsHeapBut place heap.old.items }
    requires within { place < vec_len heap.old }
    ensures heap { IsHeap heap.new.items }
    ensures resettled { Resettled jobs.old heap.old jobs.new heap.new }
{
    let at = sift_up(jobs, heap, place);
    sift_down(jobs, heap, at);
}

// Makes room for `additional` more items. If there is room, it changes nothing.
pub(crate) fn make_room<X>(items: &mut Vec<X>, additional: usize) -> Result<(), AllocError>
    ensures keeps { items.new.items ≡ items.old.items }
    ensures len { vec_len items.new ≡ vec_len items.old }
    ensures ok { OnOk result (vec_len items.new + additional ≤ vec_capacity items.new) }
    ensures capacity { vec_capacity items.old ≤ vec_capacity items.new }
    ensures succeeds { vec_len items.old + additional ≤ vec_capacity items.old → IsOk result }
    ensures had_room { vec_len items.old + additional ≤ vec_capacity items.old → vec_capacity items.new ≡ vec_capacity items.old }
    ensures full { OnErr result (vec_capacity items.old < vec_len items.old + additional) }
    ensures err { OnErr result (vec_capacity items.new ≡ vec_capacity items.old) }
{
    if additional <= items.capacity() - items.len() {
        return Ok(());
    }
    items.reserve(additional)
}

// Puts a job in, for which there is room.
pub(crate) fn put_in<T: Drop>(
    jobs: &mut Jobs<T>,
    heap: &mut Vec<Entry>,
    turn: (u64, u64),
    job: T,
) -> DefaultKey
    requires indexed { IsIndexed jobs.old heap.old }
    requires room { 0 < jobs.old.room }
    requires space { vec_len heap.old < vec_capacity heap.old }
    ensures inserts { Inserts (timed jobs.old) result (turn, job) (timed jobs.new) }
    ensures valid { StaysValid true (timed jobs.old) (timed jobs.new) }
    ensures indexed { IsIndexed jobs.new heap.new }
    ensures capacity { vec_capacity heap.new ≡ vec_capacity heap.old }
{
    let place = heap.len();
    let handle = jobs.insert(Job { turn, place, job }).unwrap();
    heap.push_reserved(Entry { turn, handle });
    settle(jobs, heap, place);
    handle
}

// Gives a job another turn.
pub(crate) fn set_turn<T: Drop>(
    jobs: &mut Jobs<T>,
    heap: &mut Vec<Entry>,
    handle: DefaultKey,
    turn: (u64, u64),
)
    requires indexed { IsIndexed jobs.old heap.old }
    requires live { IsLive jobs.old handle }
    ensures written { (j : JobOf T) → map.get jobs.old.live handle ≡ Some j → timed jobs.new ≡ with_value (timed jobs.old) handle (turn, j.job) }
    ensures indexed { IsIndexed jobs.new heap.new }
    ensures capacity { vec_capacity heap.new ≡ vec_capacity heap.old }
{
    let job = &mut jobs[handle];
    job.turn = turn;
    let place = job.place;
    heap[place].turn = turn;
    settle(jobs, heap, place);
}

// Takes a job out, and its entry.
pub(crate) fn take_out<T: Drop>(
    jobs: &mut Jobs<T>,
    heap: &mut Vec<Entry>,
    handle: DefaultKey,
) -> Option<Job<T>>
    requires { IsIndexed jobs.old heap.old }
    ensures value { result ≡ map.get jobs.old.live handle }
    ensures removes { OnSome result (Removes (timed jobs.old) handle (timed jobs.new)) }
    ensures valid { StaysValid true (timed jobs.old) (timed jobs.new) }
    ensures indexed { IsIndexed jobs.new heap.new }
    ensures capacity { vec_capacity heap.new ≡ vec_capacity heap.old }
    ensures unchanged { IfNone result ((jobs.new ≡ jobs.old) × (heap.new ≡ heap.old)) }
{
    let removed = jobs.remove(handle)?;
    heap.swap_remove(removed.place);
    if removed.place == heap.len() {
        return Some(removed);
    }
    let moved = heap[removed.place].handle;
    jobs[moved].place = removed.place;
    settle(jobs, heap, removed.place);
    Some(removed)
}

// How many entries are due that stand at a place or below it. It looks at these, and at those right
// below them.
pub(crate) fn count_due(heap: &[Entry], at: usize, now: u64) -> usize
    requires { IsHeap heap.now }
    ensures { result ≡ due_under now at heap.now }
{
    if at >= heap.len() || heap[at].turn.0 > now {
        return 0;
    }
    if at >= heap.len() / 2 {
        return 1;
    }
    1 + count_due(heap, 2 * at + 1, now) + count_due(heap, 2 * at + 2, now)
}
