//! Each call once.
use dpf_rules::*;

fn write(out: &mut [u8; 16], number: u128) {
    write_number(out, number);
}

fn add(out: &mut [u8; 16], with: &[u8; 16]) {
    xor_into(out, with);
}

fn is_number(bytes: &[u8; 16], number: u128) -> bool {
    read_number(bytes) == number
}

#[test]
fn a_number_is_read_back_and_added(rt: HostRuntime) {
    let mut bytes = [0u8; 16];
    write(&mut bytes, 0x0f0e0d0c0b0a09080706050403020100);
    assert!(rt; bytes == [0, 1, 2, 3, 4, 5, 6, 7, 8, 9, 10, 11, 12, 13, 14, 15]);
    add(
        &mut bytes,
        &[1, 0, 0, 0, 0, 0, 0, 0, 0, 0, 0, 0, 0, 0, 0, 0x80],
    );
    assert!(rt; is_number(&bytes, 0x8f0e0d0c0b0a09080706050403020101));
}
