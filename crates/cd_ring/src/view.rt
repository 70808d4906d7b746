//! What lies in a slot's place, and what a seat knows.
use std::collections::LinkedList;

/// What the place of a slot holds.
#[derive(Drop)]
pub enum Place<J, D> {
    /// Nothing.
    Empty,
    /// A job that nobody has lifted yet.
    Job(J),
    /// The result of the slot's job.
    Result(D),
}

/// What the coordinator notes of the place of a slot.
pub enum Note<D> {
    /// The coordinator has not taken it.
    Home,
    /// The coordinator has it, and the slot is free.
    Spare,
    /// The coordinator took it as it met DONE, with this result.
    Met(D),
}

/// How often a seat has looked at a word, and the value met at the last look.
pub struct Look {
    pub times: u64,
    pub met: u64,
}

/// How often a seat has stored at a word, the number stored last, and what lay in the place given back with it.
pub struct Store<J, D> {
    pub times: u64,
    pub number: u64,
    pub given: Option<Place<J, D>>,
}

/// What a seat knows of the ring. It is for the proofs alone: no value of it is made.
pub struct Known<T, J, D> {
    /// Whether it is the coordinator's.
    pub leads: bool,
    /// The task, of the coordinator's.
    pub task: Option<T>,
    /// The jobs out, the oldest first, of the coordinator's.
    pub out: LinkedList<J>,
    /// The number of results that the coordinator has taken.
    pub taken: u64,
    /// Of each slot the job that the seat holds there by a claim.
    pub held: LinkedList<Option<J>>,
    /// A note of each place, of the coordinator's.
    pub notes: LinkedList<Note<D>>,
    /// Whether the seat has set the stop word.
    pub stopped: bool,
}

/// The view of a seat: what it knows, and its looks and its stores at each word, which no rule reads. It is for the
/// proofs alone.
pub struct View<T, J, D> {
    pub known: Known<T, J, D>,
    pub looks: LinkedList<Look>,
    pub stores: LinkedList<Store<J, D>>,
}

/// What a ring is made of: its task and the number of its slots.
#[derive(Drop)]
pub struct Setup<T> {
    pub task: T,
    pub slots: u32,
}
