// What the first three lines say.
ghost use Rattle.std.specs.Prelude.{◌≡◌, true};
ghost use Rattle.table.specs.Model.{in_limits};

// E and U, within the limits.
#[derive(Clone, Copy)]
pub struct Limits {
    pub equations: usize,
    pub unknowns: usize,
    ghost within: { in_limits equations unknowns ≡ true },
}

// What the first three lines say, and where the next line starts.
#[derive(Clone, Copy)]
pub struct Head {
    pub name_end: usize,
    pub limits: Limits,
    pub next: usize,
}
