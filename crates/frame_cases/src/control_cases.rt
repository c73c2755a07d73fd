// The control octet: every value is ruled, and what is read is made again.
#[cfg(test)]
mod tests {
    use frame::{Control, ControlError, Supervisory, Unnumbered};

    #[test]
    fn worked_values(rt: HostRuntime) {
        let information = Control::Information {
            send: 3,
            poll: true,
            receive: 5,
        };
        let exchange = Control::Unnumbered {
            function: Unnumbered::Xid,
            poll: true,
        };
        let reject = Control::Supervisory {
            function: Supervisory::Srej,
            poll: false,
            receive: 3,
        };
        assert!(rt; Control::try_from(0xB6) == Ok(information));
        assert!(rt; Control::try_from(0xBF) == Ok(exchange));
        assert!(rt; Control::try_from(0x6D) == Ok(reject));
    }

    // 128 octets are INFO, 16 each RR and SREJ, and seven unnumbered frames have two each.
    #[test]
    fn every_octet(rt: HostRuntime) {
        let listed = (0..=255).filter(|octet| Control::try_from(*octet).is_ok());
        assert!(rt; listed.count() == 128 + 32 + 14);
        for octet in 0..=255 {
            if let Ok(control) = Control::try_from(octet) {
                assert!(rt; control.octet() == Ok(octet));
            }
        }
    }

    #[test]
    fn numbers_above_seven(rt: HostRuntime) {
        let send = Control::Information {
            send: 8,
            poll: false,
            receive: 7,
        };
        let receive = Control::Supervisory {
            function: Supervisory::Rr,
            poll: true,
            receive: 8,
        };
        assert!(rt; send.octet() == Err(ControlError::NumberAbove7));
        assert!(rt; receive.octet() == Err(ControlError::NumberAbove7));
        assert!(rt; ControlError::NumberAbove7.number() == 41);
    }

    #[test]
    fn information_that_suits(rt: HostRuntime) {
        let srej = Control::Supervisory {
            function: Supervisory::Srej,
            poll: false,
            receive: 0,
        };
        let frmr = Control::Unnumbered {
            function: Unnumbered::Frmr,
            poll: false,
        };
        let disc = Control::Unnumbered {
            function: Unnumbered::Disc,
            poll: false,
        };
        let test = Control::Unnumbered {
            function: Unnumbered::Test,
            poll: false,
        };
        assert!(rt; !srej.suits(0) && srej.suits(1) && srej.suits(2052));
        assert!(rt; !frmr.suits(2) && frmr.suits(3) && !frmr.suits(4));
        assert!(rt; disc.suits(0) && !disc.suits(1));
        assert!(rt; test.suits(0) && test.suits(2052));
    }
}
