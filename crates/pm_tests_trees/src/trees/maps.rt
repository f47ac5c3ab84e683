//! Puts, removals and look-ups in pages and in a map of the standard library, which answer the same.

ghost use Rattle.pm_pages.specs.Paged.{AllReadable};
ghost use Rattle.pm_pages.specs.Plain.{plain_seen, ArePlain};

use crate::trees::calls::{get, put, remove};
use crate::trees::keys::{Order, key_of, link_of_row};
use pm_pages::PlainPages;
use pm_types::{Key, Link};
use std::collections::BTreeMap;
use std::process::Abort;

/// Puts a key in both.
pub fn put_both(
    rt: &(impl Abort + AllocGlobal),
    pages: &mut PlainPages,
    map: &mut BTreeMap<Key, Link>,
    order: Order,
    number: u16,
)
    requires plain { ArePlain pages.old }
    requires readable { AllReadable (plain_seen pages.old) }
    ensures plain { ArePlain pages.new }
    ensures readable { AllReadable (plain_seen pages.new) }
{
    let key = key_of(rt, order, number);
    let link = link_of_row(number);
    let was = put(rt, pages, key.bytes(), link);
    let had: Result<_, _> = map.insert(key, Link(link));
    let had = had.expect(rt, "a key");
    assert_eq!(rt; was, Some(had), "put {number}");
}

/// Removes a key from both.
pub fn remove_both(
    rt: &(impl Abort + AllocGlobal),
    pages: &mut PlainPages,
    map: &mut BTreeMap<Key, Link>,
    order: Order,
    number: u16,
)
    requires plain { ArePlain pages.old }
    requires readable { AllReadable (plain_seen pages.old) }
    ensures plain { ArePlain pages.new }
    ensures readable { AllReadable (plain_seen pages.new) }
{
    let key = key_of(rt, order, number);
    let was = remove(rt, pages, key.bytes());
    let had = map.remove(&key);
    assert_eq!(rt; was.ok(), Some(had), "remove {number}");
}

/// Looks for a key in both.
pub fn get_both(
    rt: &(impl Abort + AllocGlobal),
    pages: &mut PlainPages,
    map: &BTreeMap<Key, Link>,
    order: Order,
    number: u16,
)
    requires plain { ArePlain pages.old }
    requires readable { AllReadable (plain_seen pages.old) }
    ensures plain { ArePlain pages.new }
    ensures readable { AllReadable (plain_seen pages.new) }
{
    let key = key_of(rt, order, number);
    let link = get(rt, pages, key.bytes());
    assert_eq!(rt; link, Some(map.get(&key).copied()), "get {number}");
}

/// Puts the keys from one number on up to another.
pub fn put_all(
    rt: &(impl Abort + AllocGlobal),
    pages: &mut PlainPages,
    map: &mut BTreeMap<Key, Link>,
    order: Order,
    from: u16,
    upto: u16,
)
    requires plain { ArePlain pages.old }
    requires readable { AllReadable (plain_seen pages.old) }
    ensures plain { ArePlain pages.new }
    ensures readable { AllReadable (plain_seen pages.new) }
{
    'keys: for i in from..upto {
        put_both(rt, pages, map, order, i);
    }
}

/// Removes the keys from one number on up to another.
pub fn remove_all(
    rt: &(impl Abort + AllocGlobal),
    pages: &mut PlainPages,
    map: &mut BTreeMap<Key, Link>,
    order: Order,
    from: u16,
    upto: u16,
)
    requires plain { ArePlain pages.old }
    requires readable { AllReadable (plain_seen pages.old) }
    ensures plain { ArePlain pages.new }
    ensures readable { AllReadable (plain_seen pages.new) }
{
    'keys: for i in from..upto {
        remove_both(rt, pages, map, order, i);
    }
}

/// Looks for each key below a number.
pub fn get_all(
    rt: &(impl Abort + AllocGlobal),
    pages: &mut PlainPages,
    map: &BTreeMap<Key, Link>,
    order: Order,
    keys: u16,
)
    requires plain { ArePlain pages.old }
    requires readable { AllReadable (plain_seen pages.old) }
    ensures plain { ArePlain pages.new }
    ensures readable { AllReadable (plain_seen pages.new) }
{
    'keys: for i in 0..keys {
        get_both(rt, pages, map, order, i);
    }
}
