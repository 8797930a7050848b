use machine::{Machine, Refusal};
use relation::RelationMachine;
use table::TableMachine;

/// What the names of the path mark, one action after another.
fn marked<M: Machine>(m: &M, path: &[&[u8]]) -> [bool; 8] {
    let mut action = m.stay();
    for name in path {
        action = m.then(&action, &m.action_of(name));
    }
    m.marks(&action)
}

/// The same with the actions joined from the last one back, and each kept in its plain form.
fn marked_back<M: Machine>(m: &M, path: &[&[u8]]) -> [bool; 8] {
    let mut kept = m.plain(&m.stay());
    for name in path.iter().rev() {
        kept = m.plain(&m.then(&m.action_of(name), &m.back(&kept)));
    }
    m.marks(&m.back(&kept))
}

/// The number of the refusal, or 0.
fn number(made: Result<(), Refusal>) -> u8 {
    match made {
        Ok(()) => 0,
        Err(why) => why.number(),
    }
}

const T: bool = true;

const F: bool = false;

/// A text, a path, and the queries that the path meets.
static MET: [(&[u8], &[&[u8]], [bool; 8]); 14] = [
    (
        b"/day/stop\n//stop\n/day//tour/*",
        &[b"day", b"tour", b"stop"],
        [F, T, T, F, F, F, F, F],
    ),
    (
        b"/day/stop\n//stop\n/day//tour/*",
        &[b"day", b"stop"],
        [T, T, F, F, F, F, F, F],
    ),
    (
        b"/day/stop\n//stop\n/day//tour/*",
        &[b"day", b"x", b"tour", b"y"],
        [F, F, T, F, F, F, F, F],
    ),
    (b"/day\n//day", &[b"day", b"day"], [F, T, F, F, F, F, F, F]),
    (b"/day\n//day", &[b"day"], [T, T, F, F, F, F, F, F]),
    (b"/day\n//day", &[b"da"], [F, F, F, F, F, F, F, F]),
    (b"/day\n//day", &[b"days"], [F, F, F, F, F, F, F, F]),
    (
        b"/day\n//day",
        &[b"not", b"in", b"any", b"query"],
        [F, F, F, F, F, F, F, F],
    ),
    (
        b"//*\n/*\n/*/*\n//*//*",
        &[b"p", b"q"],
        [T, F, T, T, F, F, F, F],
    ),
    (b"//a//a", &[b"a", b"b", b"a"], [T, F, F, F, F, F, F, F]),
    (
        b"//a/a/b",
        &[b"a", b"a", b"a", b"b"],
        [T, F, F, F, F, F, F, F],
    ),
    (
        b"//a/*/*/*/*",
        &[b"a", b"b", b"b", b"b", b"b"],
        [T, F, F, F, F, F, F, F],
    ),
    (
        b"//a/*/*/*/*",
        &[b"a", b"b", b"b", b"b", b"b", b"b"],
        [F, F, F, F, F, F, F, F],
    ),
    (
        b"/a\n/b\n/c\n/d\n//e\n//f\n//g\n//*",
        &[b"h", b"g"],
        [F, F, F, F, F, F, T, T],
    ),
];

#[test]
fn machines_agree(rt: HostRuntime) {
    let mut table = TableMachine::new();
    let mut relation = RelationMachine::new();
    for (text, path, met) in &MET {
        assert_eq!(rt; number(table.make(text)), 0);
        assert_eq!(rt; number(relation.make(text)), 0);
        assert_eq!(rt; marked(&table, path), *met);
        assert_eq!(rt; marked(&relation, path), *met);
        assert_eq!(rt; marked_back(&table, path), *met);
        assert_eq!(rt; marked_back(&relation, path), *met);
    }
}

#[test]
fn sets(rt: HostRuntime) {
    let mut table = TableMachine::new();
    assert_eq!(rt; number(table.make(b"//a/*/*/*/*")), 0);
    assert_eq!(rt; number(table.make(b"//a/*/*/*/*/*")), 5);
    assert_eq!(rt; marked(&table, &[b"a", b"b", b"c", b"d", b"e"])[0], true);
}

#[test]
fn thirty_two_and_thirty_three_sets(rt: HostRuntime) {
    let mut table = TableMachine::new();
    assert_eq!(rt;
        number(table.make(b"/*/*/*/*/*/*/*/*/*/*/*/*/*/*/*/*/*/*/*/*/*/*/*/*/*/*/*/*/*/*/*")),
        5
    );
    assert_eq!(rt;
        number(table.make(b"/*/*/*/*/*/*/*/*/*/*/*/*/*/*/*/*/*/*/*/*/*/*/*/*/*/*/*/*/*/*")),
        0
    );
}

#[test]
fn related_takes_more(rt: HostRuntime) {
    let mut relation = RelationMachine::new();
    assert_eq!(rt; number(relation.make(b"//a/*/*/*/*/*")), 0);
    assert_eq!(rt;
        marked(&relation, &[b"a", b"b", b"b", b"b", b"b", b"b"])[0],
        true
    );
    assert_eq!(rt; number(relation.make(b"//")), 2);
    assert_eq!(rt;
        marked(&relation, &[b"a", b"b", b"b", b"b", b"b", b"b"])[0],
        true
    );
}

#[test]
fn none(rt: HostRuntime) {
    let path: [&[u8]; 2] = [b"a", b"b"];
    assert_eq!(rt; marked(&TableMachine::new(), &path), [false; 8]);
    assert_eq!(rt; marked(&RelationMachine::new(), &path), [false; 8]);
}
