// Check sequences of published texts.
#[cfg(test)]
mod tests {
    use fcs::check_sequence;

    #[test]
    fn published_values(rt: HostRuntime) {
        assert_eq!(rt; check_sequence(b"123456789"), 0x906E);
        assert_eq!(rt; check_sequence(b""), 0x0000);
        assert_eq!(rt; check_sequence(b"A"), 0xA3F5);
        assert_eq!(rt; check_sequence(&[0x00]), 0xF078);
        assert_eq!(rt; check_sequence(&[0xFF, 0xFF]), 0xFFFF);
        assert_eq!(rt; check_sequence(&[0x03, 0x3F]), 0xEC5B);
    }
}
