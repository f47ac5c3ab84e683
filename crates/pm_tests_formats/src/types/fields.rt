//! Bytes of a page that are zero.

use pm_types::fields::are_zero;

#[test]
fn a_byte_that_is_not_zero_is_found_wherever_it_stands(rt: HostRuntime) {
    'bytes: for at in 0..40u16 {
        let mut page = [0; 40];
        page[at as usize] = 1;
        assert_eq!(rt; are_zero(&page, 3, 37), at < 3 || 37 <= at);
    }
    assert!(rt; are_zero(&[1; 40], 5, 5) && are_zero(&[1; 40], 9, 5));
}
