//! Each call that takes memory or hands it on, once: no clause says that a push succeeds.
use super::same;
use std::test::Fail;
use wm_list::{Growing, List, Text};

#[test]
fn a_list_takes_and_gives_back_items(rt: HostRuntime) -> Result<(), Fail> {
    let mut list = List::new(rt.alloc());
    assert!(rt; list.is_empty());
    list.push(7u64)?;
    list.push(8)?;
    same(&rt, list.len(), 2);
    same(&rt, list.get(1).copied(), Some(8));
    same(&rt, list.get(2).copied(), None);
    if list.len() == 2 {
        list.set(0, 9);
    }
    same(&rt, list.as_slice(), [9, 8].as_slice());
    let again = List::from_vec(list.into_vec());
    same(&rt, again.as_slice(), [9, 8].as_slice());
    Ok(())
}

#[test]
fn a_text_is_its_string(rt: HostRuntime) -> Result<(), Fail> {
    let text = Text::from_string(String::from_str(rt.alloc(), "name")?);
    same(&rt, text.as_str(), "name");
    same(&rt, text.into_string().as_str(), "name");
    Ok(())
}

#[test]
fn a_growing_list_takes_its_room_first(rt: HostRuntime) -> Result<(), Fail> {
    let mut list = Growing::with_capacity(rt.alloc(), 2)?;
    list.extend_within(&[7u64, 8]);
    same(&rt, list.len(), 2);
    list.reserve(1)?;
    list.push_reserved(9);
    same(&rt, list.as_slice(), [7, 8, 9].as_slice());
    same(&rt, list.into_list().as_slice(), [7, 8, 9].as_slice());
    let mut empty = Growing::new(rt.alloc());
    empty.reserve(1)?;
    empty.push_reserved(5u64);
    same(&rt, empty.as_slice(), [5].as_slice());
    Ok(())
}
