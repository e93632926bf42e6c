//! The numbers of DNSSEC algorithms and their names.
use dnssec_base::SecurityAlgorithm;

/// Whether an algorithm has this name and this number.
fn is_registered(name: &str, number: u8, algorithm: SecurityAlgorithm) -> bool {
    SecurityAlgorithm::from_name(name) == Some(algorithm)
        && SecurityAlgorithm::from_int(number) == algorithm
        && algorithm.to_int() == number
}

/// The numbers are those of IANA's registry.
#[test]
fn algorithms_are_registered(rt: HostRuntime) {
    let registered = [
        ("RSASHA256", 8, SecurityAlgorithm::RSASHA256),
        ("RSASHA512", 10, SecurityAlgorithm::RSASHA512),
        ("ECDSAP256SHA256", 13, SecurityAlgorithm::ECDSAP256SHA256),
        ("ECDSAP384SHA384", 14, SecurityAlgorithm::ECDSAP384SHA384),
        ("ED25519", 15, SecurityAlgorithm::ED25519),
        ("ED448", 16, SecurityAlgorithm::ED448),
    ];
    for (name, number, algorithm) in registered {
        assert!(rt; is_registered(name, number, algorithm), "{name}");
    }
}
