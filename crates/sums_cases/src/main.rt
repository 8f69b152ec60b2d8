// The published vectors of CRC-32C (RFC 3720, appendix B.4), the check value of the catalogues, and the sum of no bytes; a line each.
#![tactic(auto)]

// What can't be written is left out.
fn print_sum(rt: &HostRuntime, bytes: &[u8]) {
    let _ = rt.println(sums::sum(bytes));
}

// An iSCSI read command of 48 bytes.
fn command() -> [u8; 48] {
    let mut row = [0u8; 48];
    row[0] = 0x01;
    row[1] = 0xc0;
    row[16] = 0x14;
    row[22] = 0x04;
    row[27] = 0x14;
    row[31] = 0x18;
    row[32] = 0x28;
    row[40] = 0x02;
    row
}

fn main(rt: HostRuntime) {
    let zeros = [0u8; 32];
    let ones = [255u8; 32];
    let up: [u8; 32] = [
        0, 1, 2, 3, 4, 5, 6, 7, 8, 9, 10, 11, 12, 13, 14, 15, 16, 17, 18, 19, 20, 21, 22, 23, 24,
        25, 26, 27, 28, 29, 30, 31,
    ];
    let down: [u8; 32] = [
        31, 30, 29, 28, 27, 26, 25, 24, 23, 22, 21, 20, 19, 18, 17, 16, 15, 14, 13, 12, 11, 10, 9,
        8, 7, 6, 5, 4, 3, 2, 1, 0,
    ];
    let read = command();
    print_sum(&rt, &zeros);
    print_sum(&rt, &ones);
    print_sum(&rt, &up);
    print_sum(&rt, &down);
    print_sum(&rt, &read);
    print_sum(&rt, b"123456789");
    print_sum(&rt, &zeros[..0]);
}
