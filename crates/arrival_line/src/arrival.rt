//! What goes through the channel, and what a thread knows of it.

use source_model::Given;
use std::collections::LinkedList;

/// An outcome, with the number of its product.
#[derive(Clone, Copy, Debug, PartialEq, Eq)]
pub struct Arrival {
    pub product: u32,
    pub given: Given,
}

/// What goes through the channel: each arrival, and then one end message.
#[derive(Clone, Copy)]
pub enum Message {
    Arrived(Arrival),
    End,
}

// What a pass of the channel may do, what it has sent and what it has received. No value of it is made.
pub struct Traffic {
    pub sends: bool,
    pub receives: bool,
    pub sent: LinkedList<Message>,
    pub got: LinkedList<Message>,
}
