// What is noted of a node.
ghost use Rattle.std.specs.Prelude.{◌≡◌};
ghost use Rattle.repeats.specs.Noted.{note};

// What is noted of a node: its place, or its label.
pub fn note(label: u16, place: u16, places: bool) -> u16
    ensures { result ≡ note places label place }
{
    if places { place } else { label }
}
