//! Laws of workloads, each as the contract of a function without code.
ghost use Rattle.std.specs.Prelude.{◌≡◌, ◌≤◌, ◌+◌, ◌*◌, ℕ, length, All, IsTrue};
ghost use Rattle.sg_editor.specs.Ask.{asks_nothing};
ghost use Rattle.sg_workload.specs.Workload.{turns, workload};

/// How many commands a workload has.
#[tactic(auto, using(crate::proofs::Counts::size, crate::proofs::Counts::few))]
pub fn sizes()
    ensures size { (n : ℕ) → 1 ≤ n → length (workload n) ≡ 2 + 2 * n + 2 * turns n }
    ensures few { (n : ℕ) → n ≤ 400 → length (workload n) ≤ 1002 }
{}

/// No command of a workload asks anything of the shelf.
pub fn asks_nothing()
    ensures { (n : ℕ) → All (λ c. IsTrue (asks_nothing c)) (workload n) }
{}
