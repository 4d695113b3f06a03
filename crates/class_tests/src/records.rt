//! The rows of containers, and the root that keeps them.
ghost use Rattle.std.specs.Prelude.{◌≡◌, ◌+◌, ◌^◌, ◌<◌, ◌≤◌, []};
ghost use Rattle.object_pool.specs.Places.{object_of};
ghost use Rattle.object_words.specs.Roots.{Root as RootOf};
ghost use Rattle.cls_record.specs.RootObjects.{IsRoot};

use crate::words::bucket_name;
use cls_record::{
    OutOfMemory, account_page, bucket_page, decode_bucket, encode_bucket, read, swap,
};
use index_entry::log_key;
use object_pool::{Place, Pool};
use object_words::{Bucket, BucketName, BucketNames, Busy, ClassFault, ShardCount, Why};
use rgw_types::{Key, Pairs, Text};
use std::alloc::Global;
use std::test::Fail;

// All bytes here were written by another program.

/// Version 9 of a container of `acct` with 11 shards, which a reshard works on.
const ROW: [u8; 145] = [
    235, 1, 0, 0, 0, 0, 0, 0, 0, 9, 0, 0, 0, 0, 0, 0, 0, 8, 0, 0, 0, 0, 0, 0, 0, 3, 1, 0, 0, 0, 0,
    0, 0, 0, 3, 0, 0, 0, 0, 0, 0, 0, 7, 0, 0, 0, 0, 0, 0, 0, 11, 0, 0, 0, 0, 0, 0, 0, 7, 0, 0, 0,
    0, 0, 0, 0, 4, 97, 99, 99, 116, 0, 0, 0, 0, 0, 0, 0, 4, 46, 114, 58, 42, 0, 0, 0, 0, 0, 0, 0,
    0, 0, 0, 0, 0, 0, 0, 0, 2, 0, 0, 0, 0, 0, 0, 0, 5, 99, 111, 108, 111, 114, 0, 0, 0, 0, 0, 0, 0,
    3, 114, 101, 100, 0, 0, 0, 0, 0, 0, 0, 4, 115, 105, 122, 101, 0, 0, 0, 0, 0, 0, 0, 2, 88, 76,
];

/// The first version of a container with 1999 shards and nothing else.
const SMALL: [u8; 91] = [
    235, 1, 0, 0, 0, 0, 0, 0, 0, 1, 0, 0, 0, 0, 0, 0, 0, 1, 0, 0, 0, 0, 0, 0, 0, 0, 0, 0, 0, 0, 0,
    0, 0, 0, 0, 0, 0, 0, 0, 0, 0, 0, 1, 0, 0, 0, 0, 0, 0, 7, 207, 0, 0, 0, 0, 0, 0, 0, 1, 0, 0, 0,
    0, 0, 0, 0, 0, 0, 0, 0, 0, 0, 0, 0, 0, 0, 0, 0, 0, 0, 0, 0, 0, 0, 0, 0, 0, 0, 0, 0, 0,
];

fn is_row(row: &Bucket) -> bool {
    let work = Busy {
        number: 3,
        closing: false,
    };
    (row.id, row.version, row.shared, row.number) == (7, 9, 8, 3)
        && row.busy == Some(work)
        && (row.instance, row.shards.get(), row.meta.len()) == (7, 11, 2)
        && row.owner.is("acct")
        && row.readers.is(".r:*")
        && row.writers.is_empty()
        && row.meta.get("size").is_some_and(|value| value.is("XL"))
}

fn is_small(row: &Bucket) -> bool {
    (row.busy, row.shards.get(), row.meta.len()) == (None, 1999, 0)
}

#[test]
fn a_row_comes_back(rt: HostRuntime) -> Result<(), Fail> {
    let alloc = rt.alloc();
    let row = decode_bucket(alloc, &ROW)?.ok_or("no row")?;
    let right = is_row(&row);
    let again = encode_bucket(alloc, &row);
    drop(row);
    assert!(rt; right);
    assert!(rt; again?.as_slice() == ROW.as_slice());
    Ok(())
}

#[test]
fn a_row_with_nothing_else_comes_back(rt: HostRuntime) -> Result<(), Fail> {
    let alloc = rt.alloc();
    let row = decode_bucket(alloc, &SMALL)?.ok_or("no row")?;
    let right = is_small(&row);
    let again = encode_bucket(alloc, &row);
    drop(row);
    assert!(rt; right);
    assert!(rt; again?.as_slice() == SMALL.as_slice());
    Ok(())
}

/// One byte of `SMALL` changed: another kind, another layout, work of kind 3, no work with a number, 2000
/// shards, and an owner of one byte that leaves too few bytes for the rest.
const OTHERS: [(usize, u8); 6] = [(0, 234), (1, 2), (26, 3), (34, 1), (50, 208), (66, 1)];

/// Whether these bytes are no row.
fn is_none(alloc: Global, bytes: &[u8]) -> Result<bool, OutOfMemory> {
    let found = decode_bucket(alloc, bytes)?;
    let none = found.is_none();
    drop(found);
    Ok(none)
}

#[test]
fn other_bytes_are_no_rows(rt: HostRuntime) -> Result<(), Fail> {
    let alloc = rt.alloc();
    for (place, byte) in OTHERS {
        let mut bytes = SMALL;
        if let Some(changed) = bytes.get_mut(place) {
            *changed = byte;
        }
        assert!(rt; is_none(alloc, &bytes)?, "at {place}");
    }
    let mut longer = [0; 92];
    longer[..91].copy_from_slice(&SMALL);
    assert!(rt; is_none(alloc, &longer)?);
    assert!(rt; is_none(alloc, &SMALL[..90])?);
    Ok(())
}

/// A row of a container with 11 shards.
fn bucket(alloc: Global, shared: u64, instance: u64, readers: &str) -> Result<Bucket, OutOfMemory> {
    Ok(Bucket {
        id: 7,
        owner: Text::from_str(alloc, "acct")?,
        version: 0,
        shared,
        number: 0,
        busy: None,
        instance,
        shards: ShardCount::new(11).unwrap(),
        meta: Pairs::new(alloc),
        readers: Text::from_str(alloc, readers)?,
        writers: Text::new(alloc),
    })
}

/// Swaps, and gives the version that stood in the way. The log has at most so many rows.
fn step(
    alloc: Global,
    root: &mut Place<'_>,
    rows: u64,
    name: &BucketName,
    expected: u64,
    new: Option<&Bucket>,
    master: bool,
    number: u64,
) -> Result<Option<u64>, OutOfMemory>
    requires root { (r : RootOf) × IsRoot (object_of root.old) r × (r.log.last ≤ rows) }
    requires rows { rows < 2 ^ 62 }
    ensures { (r : RootOf) × IsRoot (object_of root.new) r × (r.log.last ≤ rows + 1) }
{
    raced(swap(alloc, root, name, expected, new, master, number))
}

fn raced(done: Result<(), ClassFault>) -> Result<Option<u64>, OutOfMemory> {
    match done {
        Ok(()) => Ok(None),
        Err(ClassFault::No(Why::Raced { version })) => Ok(Some(version)),
        Err(_) => Err(OutOfMemory),
    }
}

/// The version, the number of the shared part and the instance of the row that is kept.
fn numbers(
    alloc: Global,
    root: &Place<'_>,
    name: &BucketName,
) -> Result<Option<(u64, u64, u64)>, OutOfMemory> {
    let found = read(alloc, root, name)?;
    let numbers = found
        .as_ref()
        .map(|row| (row.version, row.shared, row.instance));
    drop(found);
    Ok(numbers)
}

/// The row of the log that names the container `dog`.
const LOGGED: [u8; 6] = [236, 1, 2, 100, 111, 103];

/// The row is put where none is, and its instance changes, which is the zone's own matter.
fn swaps_instances(
    alloc: Global,
    root: &mut Place<'_>,
    name: &BucketName,
    first: &Bucket,
    moved: &Bucket,
) -> Result<bool, OutOfMemory>
    requires root { (r : RootOf) × IsRoot (object_of root.old) r × (r.log.last ≤ 0) }
    ensures { (r : RootOf) × IsRoot (object_of root.new) r × (r.log.last ≤ 3) }
{
    let made = step(alloc, root, 0, name, 0, Some(first), true, 7);
    let one = numbers(alloc, root, name);
    let logged = root.row(&log_key(1)) == Some(LOGGED.as_slice())
        && root.attrs() == [0, 0, 0, 0, 0, 0, 0, 1].as_slice();
    // The version is not the expected one.
    let raced = step(alloc, root, 1, name, 0, Some(moved), true, 8);
    let still = numbers(alloc, root, name);
    let changed = step(alloc, root, 2, name, 7, Some(moved), true, 9);
    let two = numbers(alloc, root, name);
    let unlogged = root.row(&log_key(2)).is_none();
    Ok(
        made?.is_none()
            && one? == Some((7, 7, 7))
            && logged
            && raced? == Some(7)
            && still? == Some((7, 7, 7))
            && changed?.is_none()
            && two? == Some((9, 7, 8))
            && unlogged,
    )
}

/// What zones share changes, and the row is taken away. Where there is none, nothing is.
fn swaps_shared(
    alloc: Global,
    root: &mut Place<'_>,
    name: &BucketName,
    public: &Bucket,
) -> Result<bool, OutOfMemory>
    requires root { (r : RootOf) × IsRoot (object_of root.old) r × (r.log.last ≤ 3) }
{
    let changed = step(alloc, root, 3, name, 9, Some(public), true, 12)?;
    let three = numbers(alloc, root, name)?;
    let logged = root.row(&log_key(2)) == Some(LOGGED.as_slice());
    let taken = step(alloc, root, 4, name, 12, None, true, 13)?;
    let none = numbers(alloc, root, name)?;
    let logged = logged && root.row(&log_key(3)) == Some(LOGGED.as_slice());
    let nothing = step(alloc, root, 5, name, 0, None, true, 14)?;
    let unlogged = root.row(&log_key(4)).is_none();
    Ok(
        changed.is_none()
            && three == Some((12, 12, 8))
            && logged
            && taken.is_none()
            && none.is_none()
            && nothing.is_none()
            && unlogged
            && root.attrs() == [0, 0, 0, 0, 0, 0, 0, 3].as_slice(),
    )
}

/// Both, in a pool without objects.
fn master_logs(
    alloc: Global,
    pool: &mut Pool,
    name: &BucketName,
    rows: &[Bucket; 3],
) -> Result<bool, Fail>
    requires empty { pool.old ≡ record { frame = 16; frames = 1; free = 1; slots = [] } }
{
    let [first, moved, public] = rows;
    let mut root = pool.place(alloc, &Key::Root)?;
    Ok(
        swaps_instances(alloc, &mut root, name, first, moved)?
            && swaps_shared(alloc, &mut root, name, public)?,
    )
}

fn rows(alloc: Global) -> Result<[Bucket; 3], OutOfMemory> {
    let first = bucket(alloc, 4, 7, "")?;
    let moved = bucket(alloc, 4, 8, "")?;
    let public = bucket(alloc, 4, 8, ".r:*")?;
    Ok([first, moved, public])
}

#[test]
fn the_master_zone_logs_what_zones_share(rt: HostRuntime) -> Result<(), Fail> {
    let alloc = rt.alloc();
    let mut pool = Pool::new(alloc, 1, 16)?;
    let name = bucket_name(alloc, "dog")?;
    let rows = rows(alloc)?;
    let right = master_logs(alloc, &mut pool, &name, &rows);
    drop(rows);
    drop(pool);
    assert!(rt; right?);
    Ok(())
}

/// A row is put and taken away in a pool without objects, outside the master zone.
fn another_zone_logs_nothing(
    alloc: Global,
    pool: &mut Pool,
    name: &BucketName,
    new: &Bucket,
) -> Result<bool, Fail>
    requires empty { pool.old ≡ record { frame = 16; frames = 1; free = 1; slots = [] } }
{
    let mut root = pool.place(alloc, &Key::Root)?;
    let made = step(alloc, &mut root, 0, name, 0, Some(new), false, 9)?;
    let kept = numbers(alloc, &root, name)?;
    let taken = step(alloc, &mut root, 1, name, 9, None, false, 10)?;
    Ok(made.is_none() && kept == Some((9, 4, 7)) && taken.is_none() && !root.exists())
}

#[test]
fn other_zones_log_nothing(rt: HostRuntime) -> Result<(), Fail> {
    let alloc = rt.alloc();
    let mut pool = Pool::new(alloc, 1, 16)?;
    let name = bucket_name(alloc, "dog")?;
    let new = bucket(alloc, 4, 7, "")?;
    let right = another_zone_logs_nothing(alloc, &mut pool, &name, &new);
    drop(new);
    drop(pool);
    assert!(rt; right?);
    Ok(())
}

/// A row of a container of this account.
fn owned_by(alloc: Global, owner: &str) -> Result<Bucket, OutOfMemory> {
    let mut row = bucket(alloc, 4, 7, "")?;
    row.owner = Text::from_str(alloc, owner)?;
    Ok(row)
}

/// Whether these are the names of a page.
fn are(page: &BucketNames, wanted: &[&str]) -> bool {
    let names = page.as_slice();
    for place in 0..names.len() {
        let (Some(name), Some(other)) = (names.get(place), wanted.get(place)) else {
            return false;
        };
        if !name.as_text().is(*other) {
            return false;
        }
    }
    names.len() == wanted.len()
}

/// Whether these are the first names above a text. The log has at most so many rows.
fn lists(
    alloc: Global,
    root: &Place<'_>,
    rows: u64,
    after: &str,
    limit: u32,
    wanted: &[&str],
) -> Result<bool, OutOfMemory>
    requires { (r : RootOf) × IsRoot (object_of root.now) r × (r.log.last ≤ rows) }
{
    let after = Text::from_str(alloc, after)?;
    let page = bucket_page(alloc, root, &after, limit)?;
    Ok(are(&page, wanted))
}

/// Whether these are the first names above a text of an account's containers.
fn lists_of(
    alloc: Global,
    root: &Place<'_>,
    rows: u64,
    account: &str,
    after: &str,
    limit: u32,
    wanted: &[&str],
) -> Result<bool, OutOfMemory>
    requires { (r : RootOf) × IsRoot (object_of root.now) r × (r.log.last ≤ rows) }
{
    let account = Text::from_str(alloc, account)?;
    let after = Text::from_str(alloc, after)?;
    let page = account_page(alloc, root, &account, &after, limit)?;
    Ok(are(&page, wanted))
}

/// The key of the account row of `dog` as a container of `a`: its length, it, and the name.
const DOG_OF_A: [u8; 13] = [255, 0, 0, 0, 0, 0, 0, 0, 1, 97, 100, 111, 103];

/// The same as a container of `ab`.
const DOG_OF_AB: [u8; 14] = [255, 0, 0, 0, 0, 0, 0, 0, 2, 97, 98, 100, 111, 103];

/// The greatest character that there is.
const LAST: &str = "\u{10ffff}";

/// The accounts `a` and `ab` make two containers each.
fn makes_four(
    alloc: Global,
    root: &mut Place<'_>,
    names: &[BucketName; 4],
    rows: &[Bucket; 2],
) -> Result<bool, OutOfMemory>
    requires root { (r : RootOf) × IsRoot (object_of root.old) r × (r.log.last ≤ 0) }
    ensures { (r : RootOf) × IsRoot (object_of root.new) r × (r.log.last ≤ 4) }
{
    let [dog, accented, begins, last] = names;
    let [a, ab] = rows;
    let one = step(alloc, root, 0, dog, 0, Some(a), true, 1);
    let two = step(alloc, root, 1, accented, 0, Some(a), true, 2);
    let three = step(alloc, root, 2, begins, 0, Some(ab), true, 3);
    let four = step(alloc, root, 3, last, 0, Some(ab), true, 4);
    let beside = root.row(&DOG_OF_A).is_some_and(|row| row.is_empty())
        && root.row(&log_key(4)).is_some();
    Ok(one?.is_none() && two?.is_none() && three?.is_none() && four?.is_none() && beside)
}

/// Pages of all four names.
fn lists_four(alloc: Global, root: &Place<'_>) -> Result<bool, OutOfMemory>
    requires { (r : RootOf) × IsRoot (object_of root.now) r × (r.log.last ≤ 4) }
{
    Ok(
        lists(alloc, root, 4, "", 9, &["do", "dog", "é", LAST])?
            && lists(alloc, root, 4, "", 4, &["do", "dog", "é", LAST])?
            && lists(alloc, root, 4, "", 3, &["do", "dog", "é"])?
            && lists(alloc, root, 4, "", 0, &[])?
            && lists(alloc, root, 4, "\0", 1, &["do"])?
            && lists(alloc, root, 4, "d", 1, &["do"])?
            && lists(alloc, root, 4, "do", 1, &["dog"])?
            && lists(alloc, root, 4, "dog", 9, &["é", LAST])?
            && lists(alloc, root, 4, LAST, 9, &[])?,
    )
}

/// Pages of the names of each account.
fn lists_accounts(alloc: Global, root: &Place<'_>) -> Result<bool, OutOfMemory>
    requires { (r : RootOf) × IsRoot (object_of root.now) r × (r.log.last ≤ 4) }
{
    Ok(
        lists_of(alloc, root, 4, "a", "", 9, &["dog", "é"])?
            && lists_of(alloc, root, 4, "a", "", 1, &["dog"])?
            && lists_of(alloc, root, 4, "a", "do", 2, &["dog", "é"])?
            && lists_of(alloc, root, 4, "a", "dog", 1, &["é"])?
            && lists_of(alloc, root, 4, "a", "é", 9, &[])?
            && lists_of(alloc, root, 4, "ab", "", 9, &["do", LAST])?
            && lists_of(alloc, root, 4, "ab", "do", 9, &[LAST])?
            && lists_of(alloc, root, 4, "ab", LAST, 9, &[])?
            && lists_of(alloc, root, 4, "ab", "", 0, &[])?
            && lists_of(alloc, root, 4, "abd", "", 9, &[])?
            && lists_of(alloc, root, 4, "", "", 9, &[])?,
    )
}

/// `dog` goes from `a` to `ab`, and the first of `ab` is taken away.
fn moves_one(
    alloc: Global,
    root: &mut Place<'_>,
    names: &[BucketName; 4],
    rows: &[Bucket; 2],
) -> Result<bool, OutOfMemory>
    requires root { (r : RootOf) × IsRoot (object_of root.old) r × (r.log.last ≤ 4) }
{
    let [dog, _, begins, _] = names;
    let [a, ab] = rows;
    let raced = step(alloc, root, 4, dog, 9, Some(ab), true, 5)?;
    let still = lists_of(alloc, root, 5, "a", "", 9, &["dog", "é"])?;
    let moved = step(alloc, root, 5, dog, 1, Some(ab), true, 6)?;
    let there = root.row(&DOG_OF_A).is_none()
        && root.row(&DOG_OF_AB).is_some_and(|row| row.is_empty());
    let left = lists_of(alloc, root, 6, "a", "", 9, &["é"])?;
    let more = lists_of(alloc, root, 6, "ab", "", 9, &["do", "dog", LAST])?;
    let same = step(alloc, root, 6, dog, 6, Some(ab), true, 7)?;
    let taken = step(alloc, root, 7, begins, 3, None, true, 8)?;
    let fewer = lists_of(alloc, root, 8, "ab", "", 9, &["dog", LAST])?;
    let all = lists(alloc, root, 8, "", 9, &["dog", "é", LAST])?;
    let back = step(alloc, root, 8, dog, 7, Some(a), true, 9)?;
    let again = lists_of(alloc, root, 9, "a", "", 9, &["dog", "é"])?;
    Ok(
        raced == Some(1)
            && still
            && moved.is_none()
            && there
            && left
            && more
            && same.is_none()
            && taken.is_none()
            && fewer
            && all
            && back.is_none()
            && again,
    )
}

/// All of these, in a pool without objects.
fn pages_of_two_accounts(
    alloc: Global,
    pool: &mut Pool,
    names: &[BucketName; 4],
    rows: &[Bucket; 2],
) -> Result<bool, Fail>
    requires empty { pool.old ≡ record { frame = 16; frames = 1; free = 1; slots = [] } }
{
    let mut root = pool.place(alloc, &Key::Root)?;
    Ok(
        makes_four(alloc, &mut root, names, rows)?
            && lists_four(alloc, &root)?
            && lists_accounts(alloc, &root)?
            && moves_one(alloc, &mut root, names, rows)?,
    )
}

#[test]
fn pages_tell_names_and_those_of_an_account(rt: HostRuntime) -> Result<(), Fail> {
    let alloc = rt.alloc();
    let mut pool = Pool::new(alloc, 1, 16)?;
    let names = [
        bucket_name(alloc, "dog")?,
        bucket_name(alloc, "é")?,
        bucket_name(alloc, "do")?,
        bucket_name(alloc, LAST)?,
    ];
    let rows = [owned_by(alloc, "a")?, owned_by(alloc, "ab")?];
    let right = pages_of_two_accounts(alloc, &mut pool, &names, &rows);
    drop(names);
    drop(rows);
    drop(pool);
    assert!(rt; right?);
    Ok(())
}
