//! Identifiers of processes, which are paths, and of objects.
ghost use Rattle.std.specs.Prelude.{◌≡◌, ℕ, ◌+◌, ◌*◌, ◌/◌, ◌%◌, ◌<◌, ◌≤◌, ◌↔◌, Some, IsSome, IfSome};
ghost use Rattle.sk_ids.specs.Pid.{IsPath, boot_pid, child_pid};

use std::marker::Model;

/// A path of one to four numbers from 1 to 65,535, in base 65,536. Contracts see the number.
#[derive(Clone, Copy, Debug, PartialEq, Eq, PartialOrd, Ord)]
pub struct Pid {
    path: u64,
}

impl Model for Pid {
    ghost use Rattle.std.specs.Prelude.{ℕ};
    ghost use Rattle.sk_ids.specs.Pid.{IsPath};

    ghost Value = { ℕ };

    ghost view = { λ a. a.path };

    ghost invariant = { λ a. IsPath a.path };

    ghost inverse = { λ n. record { path = n } };
}

impl Pid {
    /// The boot process of this number, from 1 to 65,535.
    pub fn boot(number: u16) -> Option<Pid>
        ensures { result ≡ boot_pid number }
    {
        if number == 0 {
            return None;
        }
        Some(Pid {
            path: u64::from(number),
        })
    }

    /// The process's child of this number; `None` for 0, and at level four.
    pub fn child(self, number: u16) -> Option<Pid>
        ensures { result ≡ child_pid self number }
    {
        if number == 0 || self.path >= 1 << 48 {
            return None;
        }
        Some(Pid {
            path: self.path * 65536 + u64::from(number),
        })
    }

    /// The whole path as one number, in base 65,536.
    pub fn path(self) -> u64
        ensures value { result ≡ self }
        ensures path { IsPath result }
    {
        self.path
    }

    /// The last number of the path, from 1 on.
    pub fn last(self) -> u16
        ensures value { result ≡ self % 65536 }
        ensures some { 0 < result }
    {
        (self.path % 65536) as u16
    }

    /// The process whose child this one is; `None` for a boot process.
    pub fn parent(self) -> Option<Pid>
        ensures some { IsSome result ↔ (65536 ≤ self) }
        ensures value { IfSome result (λ p. p ≡ self / 65536) }
    {
        if self.path < 65536 {
            return None;
        }
        Some(Pid {
            path: self.path / 65536,
        })
    }
}

/// No two boot processes have one identifier, nor two children, nor a boot process and a child.
pub fn identifiers_differ()
    ensures boots { (m n x : ℕ) → boot_pid m ≡ Some x → boot_pid n ≡ Some x → m ≡ n }
    ensures children { (p q m n x : ℕ) → m < 65536 → n < 65536 →
        child_pid p m ≡ Some x → child_pid q n ≡ Some x → (p ≡ q) × (m ≡ n) }
    ensures apart { (p m n x : ℕ) → IsPath p → m < 65536 → boot_pid m ≡ Some x
        → child_pid p n ≡ Some x → ⊥ }
{}

/// An object, by its maker and the maker's count; the boot's objects have none.
#[derive(Clone, Copy, Debug, PartialEq, Eq, PartialOrd, Ord)]
pub struct ObjId {
    pub maker: Option<Pid>,
    pub count: u32,
}
