//! What the counts come to. Each law is the contract of a function that does nothing.
ghost use Rattle.std.specs.Prelude.{◌≡◌, ◌<◌, ◌↔◌, ℕ, true, length};
ghost use Rattle.sk_record.specs.declared.status.Status.{Status};
ghost use Rattle.sk_kernel.specs.Kernel.{KernelView, HasStatus};
ghost use Rattle.sk_counts.specs.Counts.{is_struck};

/// A guess that no earlier epoch made is counted as struck exactly where that is its status.
pub fn struck()
    ensures { (k : KernelView) (g : ℕ) → length k.earlier < g
        → (is_struck k g ≡ true) ↔ HasStatus k g Status.Struck }
{}
