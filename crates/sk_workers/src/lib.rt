//! Workers of a client's desk: a book holds the desk with the history of the calls that they made of it, and each call
//! gives its worker a receipt. A ledger counts the calls on both sides. Workers in several threads share a book under
//! one lock; where it is closed, their receipts are the history's entries. Requests and replies go by wires.
#![tactic(auto)]

pub mod book;
pub mod closing;
pub mod entry;
pub mod kept_reply;
pub mod shared;
pub mod worker;

pub use book::{Book, Leased};
pub use closing::History;
pub use entry::{Answered, CloseRefusal, DeskCall, HistoryEntry, Receipt};
pub use kept_reply::KeptReply;
pub use shared::{Gate, Shared};
pub use sk_wire::{Wire, WirePass};
pub use worker::{WORKERS_LIMIT, Worker};
