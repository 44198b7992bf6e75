// Items of a link that a place of the specimen is asked for.
ghost use Rattle.std.specs.Prelude.{◌≤◌};

use blocks::Link;

// The link by which a place is asked for items, how many, and 1,024 times the target of the place that they lead to.
#[derive(Clone, Copy)]
pub(crate) struct Items {
    pub(crate) link: Link,
    pub(crate) count: u64,
    pub(crate) code: u16,
    ghost few: { count ≤ 65536 },
    ghost near: { code ≤ 33792 },
}
