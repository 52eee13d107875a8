//! A count that only contracts have. It takes no bytes, and so it has no last value.
ghost use Rattle.std.specs.Prelude.{◌≡◌, ℕ, ◌+◌};

use std::marker::Model;

/// How often reads and writes have failed. The running program has no such count: it lets a contract say that a call
/// failed only if the count rose.
#[derive(Drop)]
pub struct Failures {
    pub ghost count: { ℕ },
}

impl Model for Failures {
    ghost use Rattle.std.specs.Borrow.{ftrue};

    ghost also_owns = { λ _. ftrue };
}

impl Failures {
    /// No failure yet.
    pub fn none() -> Failures
        ensures { result.count ≡ 0 }
    {
        Failures {}
    }

    // The count after one more failure.
    fn one_more(&self) -> Failures
        ensures { result.count ≡ self.now.count + 1 }
    {
        Failures {}
    }

    /// Counts one more failure, and hands back the fault that the call answers with.
    pub fn counted<F>(&mut self, fault: F) -> F
        ensures count { self.new.count ≡ self.old.count + 1 }
        ensures same { result ≡ fault }
    {
        let more = self.one_more();
        *self = more;
        fault
    }
}
