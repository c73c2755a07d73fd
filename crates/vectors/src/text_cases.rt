// Text sources at their edges.
#[cfg(test)]
mod tests {
    use crate::counting;
    use bits::text::TextSource;

    fn counted(text: &[u8]) -> (usize, usize) {
        counting::counted(TextSource::new(text))
    }

    #[test]
    fn passes_over_all_else(rt: HostRuntime) {
        assert_eq!(rt; counted(b""), (0, 0));
        assert_eq!(rt; counted(b"0"), (1, 0));
        assert_eq!(rt; counted(b"1"), (1, 1));
        assert_eq!(rt; counted(b" /2:\n\x000a1\xff1"), (3, 2));
        assert_eq!(rt; counted(b"no bit at all"), (0, 0));
    }

    #[test]
    fn reads_65536_octets_at_most(rt: HostRuntime) {
        let mut text = [b'0'; 65_537];
        assert_eq!(rt; counted(&text), (65_536, 0));
        text[65_535] = b'1';
        assert_eq!(rt; counted(&text), (65_536, 1));
        text[65_535] = b'0';
        text[65_536] = b'1';
        assert_eq!(rt; counted(&text), (65_536, 0));
        text[0] = b' ';
        assert_eq!(rt; counted(&text), (65_535, 0));
    }
}
