// What no line calls: fares and the numbers of elements outside of a record.
use record::{Fare, Size};

#[test]
fn fares_stand_for_numbers(rt: HostRuntime) {
    assert_eq!(rt; u32::from_number(0xFFFE, Size::Two), 0xFFFE);
    assert_eq!(rt; i32::from_number(0xFFFE, Size::Two), -2);
    assert_eq!(rt; i32::from_number(0x7FFF_FFFF, Size::Four), 0x7FFF_FFFF);
    assert_eq!(rt; u32::from_number(0x1_FF, Size::One), 0xFF);
    assert_eq!(rt; 0xFFFE_u32.to_number(Size::Two), 0xFFFE);
    assert_eq!(rt; (-2).to_number(Size::Two), 0xFFFE);
    assert_eq!(rt; (-2).to_number(Size::Four), 0xFFFF_FFFE);
    assert_eq!(rt; 256_u32.to_number(Size::One), 0);
}
