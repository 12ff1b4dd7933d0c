// Where the records over one cell begin.
ghost use Rattle.std.specs.Prelude.{◌≡◌, suc, ◌*◌, ◌≤◌};
ghost use Rattle.rules.specs.Limits.{max_source};
ghost use Rattle.records.specs.Layout.{record_size};

use records::sizes::record_size;

// Of swept cell k; behind them all for k = d + 1.
pub fn record_place(d: usize, k: usize) -> usize
    requires { (d ≤ max_source) × (k ≤ suc d) }
    ensures place { result ≡ k * record_size (suc d) }
    ensures low { result ≤ 126 }
{
    k * record_size(d + 1)
}
