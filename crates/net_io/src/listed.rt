//! Connections in memory.
ghost use Rattle.std.specs.Prelude.{None, Some};

use crate::{AcceptFault, Net, Port};
use gw_io::{Failed, Sink, SliceSource};
use rgw_types::Trace;
use std::alloc::Global;
use std::collections::VecDeque;
use std::mem;
use std::sync::{Arc, Mutex, Wait};

/// A connection in memory: what is read from it, and where the bytes go that are written to it.
#[derive(Drop)]
pub struct ListConnection<'a> {
    pub input: &'a [u8],
    pub output: Arc<Mutex<Vec<u8>>>,
}

/// Puts the bytes into a list that others may look at. It tells nothing of them.
#[derive(Drop)]
pub struct SharedSink<R> {
    rt: R,
    output: Arc<Mutex<Vec<u8>>>,
    faults: u64,
}

impl<R: Wait> Sink for SharedSink<R> {
    ghost taken = { λ _. None };

    ghost faults = { λ s. s.faults };

    fn write(&mut self, bytes: &[u8]) -> Result<usize, Failed> {
        let mut output = self.output.lock(&self.rt);
        if output.extend_from_slice(bytes).is_err() {
            self.faults = self.faults.saturating_add(1);
            return Err(Failed);
        }
        Ok(bytes.len())
    }
}

/// A port that gives the connections of a list, and is shut behind them.
#[derive(Drop)]
pub struct ListPort<'a, R> {
    rt: R,
    connections: VecDeque<ListConnection<'a>>,
    number: u16,
    given: u64,
    is_shut: bool,
}

impl<'a, R: Wait + Copy + Send> Port for ListPort<'a, R> {
    type In = SliceSource<'a>;

    type Out = SharedSink<R>;

    ghost port = { λ p. record { number = p.number; given = p.given; is_shut = p.is_shut; faults = 0 } };

    fn accept(&mut self, _alloc: Global) -> Result<Option<(Self::In, Self::Out)>, AcceptFault> {
        match self.connections.pop_front() {
            None => {
                self.is_shut = true;
                Ok(None)
            }
            Some(ListConnection { input, output }) => {
                self.given = self.given.saturating_add(1);
                self.is_shut = false;
                let sink = SharedSink {
                    rt: self.rt,
                    output,
                    faults: 0,
                };
                Ok(Some((SliceSource::new(input, usize::MAX, &[]), sink)))
            }
        }
    }
}

/// A net whose one port gives the connections of a list. It never fails.
#[derive(Drop)]
pub struct ListNet<'a, R> {
    rt: R,
    alloc: Global,
    connections: VecDeque<ListConnection<'a>>,
    told: Trace,
}

impl<'a, R> ListNet<'a, R> {
    pub fn new(rt: R, alloc: Global, connections: VecDeque<ListConnection<'a>>) -> Self {
        ListNet {
            rt,
            alloc,
            connections,
            told: Trace::new(),
        }
    }
}

impl<'a, R: Wait + Copy + Send> Net for ListNet<'a, R> {
    type Socket = ListPort<'a, R>;

    ghost faults = { λ _. 0 };

    ghost closed = { λ n. Some n.told.numbers };

    fn listen(&mut self, port: u16) -> Result<ListPort<'a, R>, Failed> {
        Ok(ListPort {
            rt: self.rt,
            connections: mem::replace(&mut self.connections, VecDeque::new(self.alloc)),
            number: port,
            given: 0,
            is_shut: false,
        })
    }

    fn close(&mut self, socket: ListPort<'a, R>) {
        let number = u64::from(socket.number);
        let is_shut = u64::from(socket.is_shut);
        self.told = self.told.with_moments(&[number, socket.given, is_shut, 0]);
    }
}
