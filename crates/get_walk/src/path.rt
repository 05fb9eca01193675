// What a walk goes by. In a file of its own, since a type that states bounds imports what its file's contracts cite, and these cite the type.
ghost use Rattle.std.specs.Prelude.{◌^◌, ◌<◌, ◌≤◌};

// A walk: the length of its list, the number of trees, the start, the steps from the first up to the last.
#[derive(Clone, Copy)]
pub struct Path {
    pub m: usize,
    pub n: usize,
    pub start: usize,
    pub first: usize,
    pub last: usize,
    pub ghost short: { m ≤ 8 },
    pub ghost some: { 0 < n },
    pub ghost few: { n ≤ 1024 },
    pub ghost start_small: { start < 2 ^ 44 },
    pub ghost steps: { last ≤ 1024 },
}
