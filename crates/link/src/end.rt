ghost use Rattle.link.specs.States.{State, state_over};

use crate::buffers::Buffers;
use crate::event::Event;
use crate::micropacket::{Cargo, Micropacket};
use crate::record::Core;
use ring::Ring;
use std::marker::Model;

// One end of a link, over areas that its caller gave up for its life: all numbers in the core, and the queues.
#[derive(Drop)]
pub struct End<'a> {
    pub(crate) core: Core,
    pub(crate) output: Ring<'a, Micropacket>,
    pub(crate) buffers: Buffers<'a>,
    pub(crate) events: Ring<'a, Event>,
}

// What is told of an end: its numbers, what its queues hold and how much they can hold.
impl<'a> Model for End<'a> {
    ghost Value = { State };

    ghost view = { λ e. state_over e.core e.output e.buffers e.events };
}

// The areas that an end is made over: for the output buffer, for the buffer of each channel, and for events.
#[derive(Drop)]
pub struct Areas<'a> {
    pub output: &'a mut [Micropacket],
    pub vc0: &'a mut [Cargo],
    pub vc1: &'a mut [Cargo],
    pub vc2: &'a mut [Cargo],
    pub vc3: &'a mut [Cargo],
    pub events: &'a mut [Event],
}
