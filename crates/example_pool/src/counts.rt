//! What workers count of their turns, and what SQL finds of it in the end.

ghost use Rattle.std.specs.Prelude.{◌≡◌, ◌+◌, ◌^◌, ◌-◌, min, pos, IsTrue};

/// What workers did.
#[derive(Clone, Copy, Debug, Default, PartialEq)]
pub struct Done {
    /// How many transfers were committed.
    pub transfers: u64,
    /// The sum of their amounts.
    pub credited: u64,
    /// Behind how many of them the ledger's balance was 0.
    pub balanced: u64,
    /// How many connections were found broken, and replaced.
    pub replaced: u64,
}

impl Done {
    /// What two did together.
    pub fn with(self, other: Done) -> Done
        ensures transfers { result.transfers ≡ min (self.transfers + other.transfers) (2 ^ 64 - 1) }
        ensures credited { result.credited ≡ min (self.credited + other.credited) (2 ^ 64 - 1) }
        ensures balanced { result.balanced ≡ min (self.balanced + other.balanced) (2 ^ 64 - 1) }
        ensures replaced { result.replaced ≡ min (self.replaced + other.replaced) (2 ^ 64 - 1) }
    {
        Done {
            transfers: self.transfers.saturating_add(other.transfers),
            credited: self.credited.saturating_add(other.credited),
            balanced: self.balanced.saturating_add(other.balanced),
            replaced: self.replaced.saturating_add(other.replaced),
        }
    }
}

/// What SQL finds in ledgers.
#[derive(Clone, Copy, Debug, Default, PartialEq)]
pub struct Found {
    /// How many transfers there are.
    pub transfers: u64,
    /// The sum of their amounts.
    pub credited: u64,
    /// The sum of all entries.
    pub balance: i64,
}

impl Found {
    /// What is in two of them together.
    pub fn with(self, other: Found) -> Found
        ensures transfers { result.transfers ≡ min (self.transfers + other.transfers) (2 ^ 64 - 1) }
        ensures credited { result.credited ≡ min (self.credited + other.credited) (2 ^ 64 - 1) }
    {
        Found {
            transfers: self.transfers.saturating_add(other.transfers),
            credited: self.credited.saturating_add(other.credited),
            balance: self.balance.saturating_add(other.balance),
        }
    }

    /// Whether it is what workers did, and each of their reads saw whole transfers alone.
    pub fn is_of(self, done: Done) -> bool
        ensures transfers { IsTrue result → self.transfers ≡ done.transfers }
        ensures credited { IsTrue result → self.credited ≡ done.credited }
        ensures balanced { IsTrue result → done.balanced ≡ done.transfers }
        ensures balance { IsTrue result → self.balance ≡ pos 0 }
    {
        self.transfers == done.transfers
            && self.credited == done.credited
            && done.balanced == done.transfers
            && self.balance == 0
    }
}
