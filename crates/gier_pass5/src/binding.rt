// What a used identifier means: how that is written isn't told here.
ghost use Rattle.std.specs.Prelude.{◌<◌, ◌^◌};

/// What a used identifier means.
#[derive(Debug, Clone, Copy)]
pub(crate) struct Binding {
    pub(crate) kind: u64,
    pub(crate) place: u64,
    pub(crate) count: u64,
    ghost kind_small: { kind < 2 ^ 40 },
    ghost place_small: { place < 2 ^ 40 },
    ghost count_small: { count < 2 ^ 40 },
}
