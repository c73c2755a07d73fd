// The register of parameters at its edges.
#[cfg(test)]
mod tests {
    use register::{Group, allows};
    use std::process::Abort;

    // Of the lengths 0 to 12 and 255, how many are allowed, and the least of them.
    fn lengths(rt: &impl Abort, group: Group, identifier: u8, count: usize, least: usize) {
        let allowed = (0..13).filter(|octets| allows(group, identifier, *octets));
        assert!(rt; allowed.count() == count);
        assert!(rt; allows(group, identifier, least));
        assert!(rt; least == 0 || !allows(group, identifier, least - 1));
    }

    #[test]
    fn public_rows(rt: HostRuntime) {
        lengths(&rt, Group::Public, 0x00, 13, 0);
        lengths(&rt, Group::Public, 0x01, 12, 1);
        lengths(&rt, Group::Public, 0x05, 1, 2);
        lengths(&rt, Group::Public, 0x06, 1, 2);
        lengths(&rt, Group::Public, 0x07, 1, 1);
        lengths(&rt, Group::Public, 0x08, 1, 1);
        lengths(&rt, Group::Public, 0x0A, 1, 1);
        lengths(&rt, Group::Public, 0x84, 13, 0);
    }

    #[test]
    fn private_rows(rt: HostRuntime) {
        lengths(&rt, Group::Private, 0x00, 1, 1);
        lengths(&rt, Group::Private, 0x04, 1, 1);
        lengths(&rt, Group::Private, 0x03, 13, 0);
        lengths(&rt, Group::Private, 0x06, 10, 3);
        lengths(&rt, Group::Private, 0x40, 1, 2);
        lengths(&rt, Group::Private, 0x41, 3, 4);
        lengths(&rt, Group::Private, 0x82, 3, 4);
        lengths(&rt, Group::Private, 0xC1, 3, 4);
        lengths(&rt, Group::Private, 0xC0, 2, 6);
        lengths(&rt, Group::Private, 0xC4, 2, 6);
    }

    #[test]
    fn private_rows_of_one_length(rt: HostRuntime) {
        lengths(&rt, Group::Private, 0x83, 1, 4);
        lengths(&rt, Group::Private, 0x84, 1, 4);
        lengths(&rt, Group::Private, 0xC3, 1, 4);
        lengths(&rt, Group::Private, 0xC5, 1, 4);
        lengths(&rt, Group::Private, 0xC8, 1, 3);
        lengths(&rt, Group::Private, 0xFF, 13, 0);
    }
}
