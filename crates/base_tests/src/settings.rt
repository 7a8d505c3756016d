use dshot_commands::Act;
use esc_base::{Block48, FlashDev, FlashOp, MemFlash};
use settings_block::{
    BlockFault, FlashFault, apply, default_block, load, read_block, save, servo_of, write_block,
};
use std::test::Fail;

/// The default block with another byte at `at`.
fn with_byte(at: u8, byte: u8) -> Block48 {
    let mut block = default_block();
    if at < 48 {
        block.0[at as usize] = byte;
    }
    block
}

fn fault_at(at: u8, byte: u8) -> Option<BlockFault> {
    read_block(&with_byte(at, byte)).err()
}

#[test]
fn the_first_fault_is_told(rt: HostRuntime) {
    assert_eq!(rt;
        read_block(&Block48([0xFF; 48])).err(),
        Some(BlockFault::Marker)
    );
    assert_eq!(rt; fault_at(0, 2), Some(BlockFault::Marker));
    assert_eq!(rt; fault_at(1, 2), Some(BlockFault::Version));
    assert_eq!(rt; fault_at(2, 0xA5), None, "a byte without a field");
    for (at, least, most, past) in [
        (17u8, 0u8, 1u8, 2u8),
        (18, 0, 1, 2),
        (20, 0, 1, 2),
        (23, 0, 3, 4),
        (27, 2, 64, 66),
        (27, 14, 16, 13),
        (32, 0, 255, 0),
        (33, 0, 255, 0),
        (34, 0, 255, 0),
        (35, 0, 100, 101),
        (46, 0, 2, 3),
    ] {
        assert_eq!(rt; fault_at(at, least), None, "byte {at}");
        assert_eq!(rt; fault_at(at, most), None, "byte {at}");
        if past > 0 {
            assert_eq!(rt;
                fault_at(at, past),
                Some(BlockFault::Range(at)),
                "byte {at}"
            );
        }
    }
    let mut two = with_byte(46, 9);
    two.0[23] = 9;
    assert_eq!(rt; read_block(&two).err(), Some(BlockFault::Range(23)));
}

#[test]
fn the_default_block_is_read_and_written_back(rt: HostRuntime) -> Result<(), Fail> {
    let block = default_block();
    let mut settings = read_block(&block)?;
    assert_eq!(rt; write_block(&settings), block);
    let shown = (settings.advance, settings.poles, settings.dead_band);
    assert_eq!(rt; shown, (1, 14, 50));
    let servo = servo_of(&settings);
    assert_eq!(rt; (servo.low_us, servo.high_us), (1006, 2006));
    apply(&mut settings, Act::Direction(1));
    apply(&mut settings, Act::ThreeD(true));
    apply(&mut settings, Act::Spin(1));
    assert_eq!(rt; write_block(&settings).0[17], 1);
    assert_eq!(rt; write_block(&settings).0[18], 1);
    Ok(())
}

#[test]
fn settings_are_saved_and_loaded(rt: HostRuntime) -> Result<(), Fail> {
    let mut flash = MemFlash::new(rt.alloc())?;
    let mut loaded = load(&mut flash)?;
    assert_eq!(rt; loaded.fault, Some(BlockFault::Marker));
    apply(&mut loaded.settings, Act::Direction(1));
    for op in [FlashOp::Erase, FlashOp::Program] {
        flash.fail(op, 1)?;
        assert_eq!(rt;
            save(&loaded.settings, &mut flash),
            Err(FlashFault),
            "{op:?}"
        );
    }
    save(&loaded.settings, &mut flash)?;
    flash.fail(FlashOp::Read, 2)?;
    let again = load(&mut flash)?;
    assert_eq!(rt; again.fault, None);
    assert_eq!(rt; again.settings.direction, 1);
    assert_eq!(rt; load(&mut flash), Err(FlashFault));
    let mut page = [0u8; 2];
    flash.read(0x7C00, &mut page)?;
    assert_eq!(rt; page, [1, 1]);
    Ok(())
}
