// Sinks in memory.
ghost use Rattle.std.specs.Prelude.{◌≡◌, ◌≤◌, ◌++◌, [], true, OnOk, OnErr, IsErrOf};
ghost use Rattle.board_base.specs.Counts.{Rose, count_if};
ghost use Rattle.board_base.specs.Sink.{appended, AppendsPrefix};

use crate::{Sink, SinkError};
use std::alloc::Global;

/// A sink in memory, which tells what it got. Its k-th put fails, where one is set.
#[derive(Drop)]
pub struct MemorySink {
    bytes: Vec<u8>,
    puts: u64,
    put_to_fail: u64,
    faults: u64,
}

impl MemorySink {
    ghost use Rattle.board_base.specs.Memory.{sink_bytes, sink_state, new_sink, no_plan, puts_of};

    /// A sink that got nothing. It keeps the allocator, and takes no memory.
    pub fn new(alloc: Global) -> MemorySink
        ensures state { sink_state result ≡ new_sink }
        ensures puts { puts_of result ≡ no_plan }
    {
        MemorySink {
            bytes: Vec::new(alloc),
            puts: 0,
            put_to_fail: 0,
            faults: 0,
        }
    }

    /// Lets the put with this number fail, counted from 1 over all puts; 0 lets none fail.
    pub fn fail_put(&mut self, k: u64)
        ensures state { sink_state self.new ≡ sink_state self.old }
        ensures puts { puts_of self.new ≡ record { calls = (puts_of self.old).calls; to_fail = k } }
    {
        self.put_to_fail = k;
    }

    /// The bytes so far.
    pub fn bytes(&self) -> &[u8]
        ensures { result.now ≡ sink_bytes self.now }
    {
        &self.bytes
    }
}

impl Sink for MemorySink {
    ghost use Rattle.board_base.specs.Memory.{sink_state, puts_of, next_call, is_to_fail};

    ghost state = { λ s. sink_state s };

    fn put(&mut self, bytes: &[u8]) -> Result<(), SinkError>
        ensures faults { (sink_state self.old).faults ≤ (sink_state self.new).faults }
        ensures ok { OnOk result ((sink_state self.new).text ≡ appended bytes.now (sink_state self.old).text) }
        ensures failed { IsErrOf result SinkError.Failed → Rose (sink_state self.old).faults (sink_state self.new).faults }
        ensures prefix { IsErrOf result SinkError.Failed
            → AppendsPrefix bytes.now (sink_state self.old).text (sink_state self.new).text }
        ensures memory { IsErrOf result SinkError.Memory → (sink_state self.new).text ≡ (sink_state self.old).text }

        // The put that is to fail does, and it alone is counted. It appends nothing.
        ensures planned { is_to_fail (puts_of self.old) ≡ true → IsErrOf result SinkError.Failed }
        ensures counted { (sink_state self.new).faults ≡ count_if (is_to_fail (puts_of self.old)) (sink_state self.old).faults }
        ensures puts { puts_of self.new ≡ next_call (puts_of self.old) }
        ensures refused { OnErr result ((sink_state self.new).text ≡ (sink_state self.old).text) }
    {
        self.puts = self.puts.saturating_add(1);
        if self.puts == self.put_to_fail {
            self.faults = self.faults.saturating_add(1);
            return Err(SinkError::Failed);
        }
        match self.bytes.extend_from_slice(bytes) {
            Ok(()) => Ok(()),
            Err(_) => Err(SinkError::Memory),
        }
    }
}

/// A sink in memory that never fails. It tells what it got.
#[derive(Drop)]
pub struct SteadySink {
    bytes: Vec<u8>,
}

impl SteadySink {
    ghost use Rattle.board_base.specs.Memory.{steady_bytes};

    /// A sink that got nothing. It keeps the allocator, and takes no memory.
    pub fn new(alloc: Global) -> SteadySink
        ensures { steady_bytes result ≡ [] }
    {
        SteadySink {
            bytes: Vec::new(alloc),
        }
    }

    /// The bytes so far.
    pub fn bytes(&self) -> &[u8]
        ensures { result.now ≡ steady_bytes self.now }
    {
        &self.bytes
    }
}

impl Sink for SteadySink {
    ghost use Rattle.std.specs.Prelude.{Some};
    ghost use Rattle.board_base.specs.Memory.{steady_bytes};

    ghost state = { λ s. record { text = Some (steady_bytes s); faults = 0 } };

    fn put(&mut self, bytes: &[u8]) -> Result<(), SinkError> {
        match self.bytes.extend_from_slice(bytes) {
            Ok(()) => Ok(()),
            Err(_) => Err(SinkError::Memory),
        }
    }
}
