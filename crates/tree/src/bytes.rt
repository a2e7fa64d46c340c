// The bytes of an expression.
ghost use Rattle.std.specs.Prelude.{◌≡◌, ◌<◌, length, get_or};
ghost use Rattle.tree.specs.Says.{Says};

// Whether this byte stands at a place.
pub fn stands_at(expr: &[u8], at: usize, byte: u8) -> bool
    ensures { Says ((at < length expr.now) × (get_or expr.now at 0 ≡ byte)) result }
{
    expr.get(at) == Some(&byte)
}
