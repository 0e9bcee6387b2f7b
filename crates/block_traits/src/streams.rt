//! Sources of bytes, sinks for bytes, and sources of random bytes.
ghost use Rattle.std.specs.Prelude.{◌≡◌, ◌<◌, ◌≤◌, OnOk, IfOk, OnErr, length, take};
ghost use Rattle.std.specs.Io.KnownBytes.{prepend_known, append_known, IsAtEnd};
ghost use Rattle.block_traits.specs.Causes.{Counted, HasCause, Rose};
ghost use Rattle.block_traits.specs.Streams.{EntropyState, SinkState, SourceState};

/// The source failed.
#[derive(Clone, Copy, Debug, PartialEq, Eq)]
pub struct SourceFailed;

/// The sink failed.
#[derive(Clone, Copy, Debug, PartialEq, Eq)]
pub struct SinkFailed;

/// There was no entropy.
#[derive(Clone, Copy, Debug, PartialEq, Eq)]
pub struct EntropyFailed;

/// A source of bytes, such as standard input.
pub trait Source {
    /// The bytes that are left, if the source reports them. Then counts: of failures, which never falls, of the calls
    /// that were refused, and of those that met the end.
    ghost state: { Self → SourceState };

    /// Moves the first bytes that are left to the front of `into`, and returns how many. 0 means the end of input. A
    /// failure takes nothing, and `into` may then hold any bytes.
    fn take(&mut self, into: &mut [u8]) -> Result<usize, SourceFailed>
        requires { 0 < length into.old }
        ensures bound { IfOk result (λ k. k ≤ length into.new) }
        ensures bytes { IfOk result (λ k. (state self.old).left ≡ prepend_known (take k into.new) (state self.new).left) }
        ensures end { IfOk result (λ k. k ≡ 0 → IsAtEnd (state self.new).left) }
        ensures err { OnErr result ((state self.new).left ≡ (state self.old).left) }
        ensures cause { HasCause (state self.old).faults (state self.new).faults result }
        ensures granted { OnOk result ((state self.new).refused ≡ (state self.old).refused) }
        ensures refused { OnErr result (Counted 1 (state self.old).refused (state self.new).refused) }
        ensures ended { IfOk result (λ k. k ≡ 0 → Counted 1 (state self.old).ends (state self.new).ends) }
        ensures gave { IfOk result (λ k. 0 < k → (state self.new).ends ≡ (state self.old).ends) }
        ensures unended { OnErr result ((state self.new).ends ≡ (state self.old).ends) };
}

/// A sink for bytes, such as standard output.
pub trait Sink {
    /// The bytes that the sink took, if it reports them. Then counts: of failures, which never falls, of the calls that
    /// were refused, and of those that gave nothing.
    ghost state: { Self → SinkState };

    /// Takes the first bytes of `from`, and returns how many. To take none of bytes that are there is counted as a
    /// fault and as a refused call, just like a failure. A failure takes nothing.
    fn give(&mut self, from: &[u8]) -> Result<usize, SinkFailed>
        ensures bound { IfOk result (λ k. k ≤ length from.now) }
        ensures bytes { IfOk result (λ k. (state self.new).taken ≡ append_known (state self.old).taken (take k from.now)) }
        ensures none { IfOk result (λ k. k ≡ 0 → 0 < length from.now → Rose (state self.old).faults (state self.new).faults) }
        ensures err { OnErr result ((state self.new).taken ≡ (state self.old).taken) }
        ensures cause { HasCause (state self.old).faults (state self.new).faults result }
        ensures granted { IfOk result (λ k. 0 < k → (state self.new).refused ≡ (state self.old).refused) }
        ensures unmoved { IfOk result (λ k. k ≡ 0 → 0 < length from.now → Counted 1 (state self.old).refused (state self.new).refused) }
        ensures refused { OnErr result (Counted 1 (state self.old).refused (state self.new).refused) }
        ensures idled { length from.now ≡ 0 → Counted 1 (state self.old).idle (state self.new).idle }
        ensures busy { 0 < length from.now → (state self.new).idle ≡ (state self.old).idle };
}

/// A source of random bytes.
pub trait Entropy {
    /// The bytes that are left, if the object reports them. Then counts: of failures, which never falls, and of calls.
    ghost state: { Self → EntropyState };

    /// Fills `into` with the first bytes that are left, in order. A failure takes nothing, and `into` may then hold any
    /// bytes. The call is counted whatever the result.
    fn fill(&mut self, into: &mut [u8]) -> Result<(), EntropyFailed>
        ensures ok { OnOk result ((state self.old).left ≡ prepend_known into.new (state self.new).left) }
        ensures err { OnErr result ((state self.new).left ≡ (state self.old).left) }
        ensures cause { HasCause (state self.old).faults (state self.new).faults result }
        ensures asked { Counted 1 (state self.old).calls (state self.new).calls };
}
