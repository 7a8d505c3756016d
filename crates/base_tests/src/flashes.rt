use esc_base::{Failed, FileFlash, FlashDev, FlashOp, MemFlash};
use std::fs;
use std::test::Fail;

fn call(flash: &mut MemFlash, op: FlashOp) -> Result<(), Failed> {
    match op {
        FlashOp::Attach => flash.attach(None),
        FlashOp::Read => flash.read(0x7C00, &mut [0; 4]),
        FlashOp::Erase => flash.erase(31),
        FlashOp::Program => flash.program(0x7C00, b"block"),
    }
}

#[test]
fn memory_flash_fails_where_asked(rt: HostRuntime) -> Result<(), Fail> {
    for op in [
        FlashOp::Attach,
        FlashOp::Read,
        FlashOp::Erase,
        FlashOp::Program,
    ] {
        for n in [1u64, 2, 5] {
            let mut flash = MemFlash::new(rt.alloc())?;
            call(&mut flash, op)?;
            flash.fail(op, n)?;
            for made in 1..7u64 {
                assert_eq!(rt;
                    call(&mut flash, op).is_err(),
                    made == n,
                    "{op:?} {n} {made}"
                );
            }
        }
    }
    Ok(())
}

#[test]
fn memory_flash_clears_and_sets_bits(rt: HostRuntime) -> Result<(), Fail> {
    let mut flash = MemFlash::new(rt.alloc())?;
    let mut buf = [0u8; 4];
    flash.set(0x7BFF, &[0x11, 0x0F, 0xF0, 0x22]);
    flash.program(0x7C00, &[0x3C, 0x3C])?;
    flash.read(0x7BFF, &mut buf)?;
    assert_eq!(rt; buf, [0x11, 0x0C, 0x30, 0x22]);
    flash.erase(31)?;
    flash.read(0x7BFF, &mut buf)?;
    assert_eq!(rt; buf, [0x11, 0xFF, 0xFF, 0xFF]);
    assert_eq!(rt; flash.bytes().len(), 32768);
    Ok(())
}

#[test]
fn file_flash_wants_a_whole_image(rt: HostRuntime) -> Result<(), Fail> {
    fs::write(&rt, "whole.img", MemFlash::new(rt.alloc())?.bytes())?;
    fs::write(&rt, "short.img", b"short".as_slice())?;
    let mut flash = FileFlash::new(&rt, rt.alloc())?;
    flash.program(0, b"its own")?;
    for image in ["short.img", "missing.img", "."] {
        assert_eq!(rt; flash.attach(Some(image)), Err(Failed), "at {image}");
    }
    flash.attach(Some("whole.img"))?;
    flash.erase(31)?;
    flash.program(0x7C00, b"block")?;
    let mut again = FileFlash::new(&rt, rt.alloc())?;
    again.attach(Some("whole.img"))?;
    let mut buf = [0u8; 5];
    again.read(0x7C00, &mut buf)?;
    assert_eq!(rt; &buf, b"block");
    again.read(0, &mut buf)?;
    assert_eq!(rt; buf, [0xFF; 5]);
    assert_eq!(rt; fs::metadata(&rt, "short.img")?.len(), 5);
    fs::remove_file(&rt, "whole.img")?;
    fs::remove_file(&rt, "short.img")?;
    Ok(())
}
