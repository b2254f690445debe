// Memories on examples: no frame, one frame, more frames than are shown, and the order of bytes.

ghost use Rattle.std.specs.Prelude.{◌≡◌};
ghost use Rattle.memory.specs.Memories.{behind, written};

use crate::items::Item;
use crate::kinds::{Bytes, Lent, Words};
use crate::traits::Memory;
use std::process::Abort;
use std::test::Fail;

// A lender of a list knows what was written into it.
fn write_two<T: Item<N>, const N: usize>(list: &mut [T])
    ensures { list.new ≡ written N T.put (written N T.put list.old 0 5) 1 6 }
{
    let mut memory = Lent::new(list);
    let _ = memory.write(0, 5);
    let _ = memory.write(1, 6);
}

// What stands beside the words of any memory is kept.
fn write_first<M: Memory>(memory: &mut M)
    ensures kept { M.means.beside memory.new ≡ M.means.beside memory.old }
{
    let _ = memory.write(0, 5);
}

// A lender knows of a memory that was passed by reference that what lies behind its frames is as it was.
fn lend(list: &mut [u64])
    ensures { behind 512 list.new ≡ behind 512 list.old }
{
    let mut memory = Words::new(list);
    write_first(&mut memory);
}

// The memory has words up to `last`, and none from `past` on.
fn ends<M: Memory>(rt: &impl Abort, memory: &mut M, last: u64, past: u64) {
    assert!(rt; memory.write(last, 5));
    assert_eq!(rt; memory.read(last), Some(5));
    assert!(rt; !memory.write(past, 6));
    assert_eq!(rt; memory.read(past), None);
    assert!(rt; !memory.write(u64::MAX, 6));
    assert_eq!(rt; memory.read(u64::MAX), None);
}

// The list is too short for a frame: it shows nothing, and stays as it is.
fn no_frame<T: Item<N> + PartialEq, const N: usize>(rt: &impl Abort, list: &mut [T], same: &[T]) {
    assert_eq!(rt; Lent::new(&mut list[..0]).frames(), 0);
    let mut memory = Lent::new(list);
    assert_eq!(rt; memory.frames(), 0);
    assert_eq!(rt; memory.read(0), None);
    assert!(rt; !memory.write(0, 1));
    assert!(rt; &*list == same);
}

// The list shows so many frames, with words up to `last`, and none from `past` on.
fn some_frames<T: Item<N>, const N: usize>(
    rt: &impl Abort,
    list: &mut [T],
    frames: u64,
    last: u64,
    past: u64,
) {
    let mut memory = Lent::new(list);
    assert_eq!(rt; memory.frames(), frames);
    ends(rt, &mut memory, last, past);
}

#[test]
fn no_frame_of_words(rt: HostRuntime) -> Result<(), Fail> {
    let mut list = vec![in rt.alloc(); 7u64; 511]?;
    let same = list.clone()?;
    no_frame(&rt, list.as_mut_slice(), same.as_slice());
    Ok(())
}

#[test]
fn no_frame_of_bytes(rt: HostRuntime) -> Result<(), Fail> {
    let mut list = vec![in rt.alloc(); 7u8; 4095]?;
    let same = list.clone()?;
    no_frame(&rt, list.as_mut_slice(), same.as_slice());
    Ok(())
}

#[test]
fn one_frame(rt: HostRuntime) -> Result<(), Fail> {
    let mut words = vec![in rt.alloc(); 0u64; 513]?;
    some_frames(&rt, words.as_mut_slice(), 1, 511, 512);
    let mut bytes = vec![in rt.alloc(); 0u8; 4104]?;
    some_frames(&rt, bytes.as_mut_slice(), 1, 511, 512);
    Ok(())
}

#[test]
fn too_many_frames(rt: HostRuntime) -> Result<(), Fail> {
    let mut words = vec![in rt.alloc(); 0u64; 257 * 512]?;
    some_frames(&rt, words.as_mut_slice(), 256, 131071, 131072);
    let mut bytes = vec![in rt.alloc(); 0u8; 257 * 4096]?;
    some_frames(&rt, bytes.as_mut_slice(), 256, 131071, 131072);
    Ok(())
}

#[test]
fn low_byte_first(rt: HostRuntime) -> Result<(), Fail> {
    let mut list = vec![in rt.alloc(); 0; 4096]?;
    let mut memory = Bytes::new(list.as_mut_slice());
    assert!(rt; memory.write(1, 0x0807_0605_0403_0201));
    assert_eq!(rt; memory.read(1), Some(0x0807_0605_0403_0201));
    assert_eq!(rt; memory.read(0), Some(0));
    let slice = list.as_slice();
    assert!(rt; slice.len() == 4096);
    assert!(rt; slice[7..17] == [0, 1, 2, 3, 4, 5, 6, 7, 8, 0]);
    Ok(())
}

#[test]
fn lent_list(rt: HostRuntime) -> Result<(), Fail> {
    let mut list = vec![in rt.alloc(); 0u64; 513]?;
    lend(list.as_mut_slice());
    assert!(rt; list.as_slice()[0] == 5);
    let mut list = vec![in rt.alloc(); 0u64; 512]?;
    write_two(list.as_mut_slice());
    let slice = list.as_slice();
    assert!(rt; slice.len() == 512);
    assert!(rt; slice[0] == 5 && slice[1] == 6);
    let mut list = vec![in rt.alloc(); 0u8; 4096]?;
    write_two(list.as_mut_slice());
    let slice = list.as_slice();
    assert!(rt; slice.len() == 4096);
    assert!(rt; slice[0] == 5 && slice[8] == 6);
    Ok(())
}
