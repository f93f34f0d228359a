// One stretch of a shift against another (document 02, T-07), by counting. Of each event there is its key, 0 for a tick.
#![tactic(auto)]

ghost use Rattle.std.specs.Prelude.{◌≡◌, ◌==◌, count_by};
ghost use Rattle.std.specs.List.{list_all};
ghost use Rattle.stretch.specs.Keys.{alike};

// How often a key stands in a stretch.
fn often(a: &[u32], key: u32) -> usize
    ensures { result ≡ count_by (λ other. key == other) a.now }
{
    let mut count = 0;
    for other in a {
        count += usize::from(key == *other);
    }
    count
}

// Each key of the first stands in both as often.
fn covered(a: &[u32], b: &[u32]) -> bool
    ensures { result ≡ list_all (λ key. count_by (λ other. key == other) a.now == count_by (λ other. key == other) b.now) a.now }
{
    a.iter().all(|key| often(a, *key) == often(b, *key))
}

// Two stretches hold the same keys, each as often.
pub fn alike(a: &[u32], b: &[u32]) -> bool
    ensures { result ≡ alike a.now b.now }
{
    covered(a, b) && covered(b, a)
}
