//! Algorithm numbers of DNSSEC, and the names of some.
ghost use Rattle.std.specs.Prelude.{◌≡◌, ◌∷◌, []};
ghost use Rattle.dnssec_base.specs.AlgorithmNames.{algorithm_named};

use std::marker::Model;

/// The algorithm of a key, by its number in IANA's registry of DNSSEC algorithms.
///
/// Every number is accepted, also one that the registry leaves free.
#[derive(Clone, Copy, Debug, PartialEq, Eq, Hash)]
pub struct SecurityAlgorithm {
    /// The number.
    pub number: u8,
}

impl Model for SecurityAlgorithm {
    ghost use Rattle.std.specs.Prelude.{ℕ};

    ghost Value = { ℕ };

    ghost view = { λ algorithm. algorithm.number };

    ghost inverse = { λ number. record { number = number } };
}

impl SecurityAlgorithm {
    /// RSA with SHA-256 (RFC 5702).
    pub const RSASHA256: SecurityAlgorithm = SecurityAlgorithm { number: 8 };

    /// RSA with SHA-512 (RFC 5702).
    pub const RSASHA512: SecurityAlgorithm = SecurityAlgorithm { number: 10 };

    /// The curve P-256 with SHA-256 (RFC 6605).
    pub const ECDSAP256SHA256: SecurityAlgorithm = SecurityAlgorithm { number: 13 };

    /// The curve P-384 with SHA-384 (RFC 6605).
    pub const ECDSAP384SHA384: SecurityAlgorithm = SecurityAlgorithm { number: 14 };

    /// The Edwards curve Ed25519 (RFC 8080).
    pub const ED25519: SecurityAlgorithm = SecurityAlgorithm { number: 15 };

    /// The Edwards curve Ed448 (RFC 8080).
    pub const ED448: SecurityAlgorithm = SecurityAlgorithm { number: 16 };

    /// The six algorithms that have a constant here, in ascending order of their IANA numbers.
    pub fn constants() -> [SecurityAlgorithm; 6]
        ensures { result ≡ 8 ∷ 10 ∷ 13 ∷ 14 ∷ 15 ∷ 16 ∷ [] }
    {
        [
            SecurityAlgorithm::RSASHA256,
            SecurityAlgorithm::RSASHA512,
            SecurityAlgorithm::ECDSAP256SHA256,
            SecurityAlgorithm::ECDSAP384SHA384,
            SecurityAlgorithm::ED25519,
            SecurityAlgorithm::ED448,
        ]
    }

    /// The algorithm with this number in IANA's registry of DNSSEC algorithms. Every number is
    /// accepted, also one that the registry leaves free.
    pub fn from_int(number: u8) -> Self
        ensures { result ≡ number }
    {
        SecurityAlgorithm { number }
    }

    /// The algorithm with this name in IANA's registry: `ED25519` names number 15. `None` for every
    /// text but the names of the six constants of this type, in upper case. So `15` is no name.
    ///
    /// ```rust
    /// let algorithm = match SecurityAlgorithm::from_name(word) {
    ///     Some(algorithm) => algorithm,
    ///     None => SecurityAlgorithm::from_int(word.parse()?),
    /// };
    /// ```
    #[tactic(auto, unfolding(crate::specs::AlgorithmNames::algorithm_named))]
    pub fn from_name(name: &str) -> Option<SecurityAlgorithm>
        ensures { result ≡ algorithm_named name.now }
    {
        match name {
            "RSASHA256" => Some(SecurityAlgorithm::RSASHA256),
            "RSASHA512" => Some(SecurityAlgorithm::RSASHA512),
            "ECDSAP256SHA256" => Some(SecurityAlgorithm::ECDSAP256SHA256),
            "ECDSAP384SHA384" => Some(SecurityAlgorithm::ECDSAP384SHA384),
            "ED25519" => Some(SecurityAlgorithm::ED25519),
            "ED448" => Some(SecurityAlgorithm::ED448),
            _ => None,
        }
    }

    /// The number of the algorithm in IANA's registry of DNSSEC algorithms.
    pub fn to_int(self) -> u8
        ensures { result ≡ self }
    {
        self.number
    }
}
