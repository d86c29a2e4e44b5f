// A sink over a list in memory, whose calls can be made to fail.
ghost use Rattle.std.specs.Prelude.{◌≡◌, ◌++◌, ◌∷◌, [], OnOk, OnErr};
ghost use Rattle.policy_outside.specs.MemorySink.{sink_view, PutsInMemory};
ghost use Rattle.policy_outside.specs.Sink.{Puts};

use crate::counts::is_next_to_fail;
use crate::faults::{Memory, PutFault};
use crate::sink::Sink;
use std::alloc::Global;
use std::marker::Model;

/// A sink that keeps its bytes in memory and tells them. Its calls of `put` are counted from 1, and
/// those that `fail_at` names append nothing and answer `Failed`.
#[derive(Drop)]
pub struct MemorySink {
    bytes: Vec<u8>,
    failing: Vec<u64>,
    calls: u64,
    faults: u64,
    shortages: u64,
}

impl Model for MemorySink {
    ghost use Rattle.policy_outside.specs.MemorySink.{SinkInMemory};

    ghost Value = { SinkInMemory };

    ghost view = { λ s. record {
      bytes = s.bytes.items;
      failing = s.failing.items;
      calls = s.calls;
      faults = s.faults;
      shortages = s.shortages;
    } };
}

impl MemorySink {
    /// An empty sink with both counts at 0, none of whose calls is to fail.
    pub fn new(alloc: Global) -> MemorySink
        ensures { result ≡ record
            { bytes = []; failing = []; calls = 0; faults = 0; shortages = 0 } }
    {
        MemorySink {
            bytes: Vec::new(alloc),
            failing: Vec::new(alloc),
            calls: 0,
            faults: 0,
            shortages: 0,
        }
    }

    /// Makes the call of `put` with this number fail; the first call has number 1.
    /// After `Memory` the sink is unchanged.
    pub fn fail_at(&mut self, call: u64) -> Result<(), Memory>
        ensures ok { OnOk result
            (self.new ≡ record self.old { failing = self.old.failing ++ call ∷ [] }) }
        ensures err { OnErr result (self.new ≡ self.old) }
    {
        self.failing.push(call)?;
        Ok(())
    }

    /// The bytes that were put so far.
    pub fn bytes(&self) -> &[u8]
        ensures { result.now ≡ self.now.bytes }
    {
        self.bytes.as_slice()
    }
}

impl Sink for MemorySink {
    ghost seen = { sink_view };

    fn put(&mut self, piece: &[u8]) -> Result<(), PutFault>
        ensures puts { Puts (sink_view self.old) (sink_view self.new) piece.now result }
        ensures exact { PutsInMemory self.old self.new piece.now result }
    {
        let fails = is_next_to_fail(self.failing.as_slice(), self.calls);
        self.calls = self.calls.saturating_add(1);
        if fails {
            self.faults = self.faults.saturating_add(1);
            return Err(PutFault::Failed);
        }
        match self.bytes.extend_from_slice(piece) {
            Ok(()) => Ok(()),
            Err(_) => {
                self.shortages = self.shortages.saturating_add(1);
                Err(PutFault::Memory)
            }
        }
    }
}
