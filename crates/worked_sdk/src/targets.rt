//! Hosts and paths that are taken, and others (profile).

ghost use Rattle.std.specs.Prelude.{◌≡◌, ◌∷◌, [], codes, false, true};
ghost use Rattle.otlp_http.specs.Address.{is_host, is_host_byte, is_path, is_path_byte};

/// Hosts: letters, digits, dots, dashes and underscores, one at least, or an IPv6 address in
/// brackets.
pub fn hosts()
    ensures address { is_host (codes "127.0.0.1") ≡ true }
    ensures name { is_host (codes "Collector-1.example") ≡ true }
    ensures byte { is_host (codes "-") ≡ true }
    ensures empty { is_host [] ≡ false }
    ensures port { is_host (codes "localhost:4318") ≡ false }
    ensures loopback { is_host (codes "[::1]") ≡ true }
    ensures mixed { is_host (codes "[::FFFF:127.0.0.1]") ≡ true }
    ensures no_brackets { is_host (codes "::1") ≡ false }
    ensures no_end { is_host (codes "[::1") ≡ false }
    ensures twice { is_host (codes "[::1]]") ≡ false }
    ensures nothing_inside { is_host (codes "[]") ≡ false }
    ensures four_numbers { is_host (codes "[127.0.0.1]") ≡ false }
    ensures no_digit { is_host (codes "[::g]") ≡ false }
    ensures zone { is_host (codes "[fe80::1%eth0]") ≡ false }
    ensures space { is_host (codes "a b") ≡ false }
    ensures underscore { is_host (codes "a_b") ≡ true }
    ensures end_of_line { is_host (codes "a\r\nX: y") ≡ false }
    ensures not_ascii { is_host (195 ∷ 169 ∷ []) ≡ false }
{}

/// The bytes beside those of a host.
pub fn host_bytes()
    ensures below_dash { is_host_byte 44 ≡ false }
    ensures above_dot { is_host_byte 47 ≡ false }
    ensures first_digit { is_host_byte 48 ≡ true }
    ensures last_digit { is_host_byte 57 ≡ true }
    ensures above_digits { is_host_byte 58 ≡ false }
    ensures below_capitals { is_host_byte 64 ≡ false }
    ensures last_capital { is_host_byte 90 ≡ true }
    ensures above_capitals { is_host_byte 91 ≡ false }
    ensures below_underscore { is_host_byte 94 ≡ false }
    ensures below_letters { is_host_byte 96 ≡ false }
    ensures last_letter { is_host_byte 122 ≡ true }
    ensures above_letters { is_host_byte 123 ≡ false }
{}

/// Paths: a slash, and then any visible bytes but `#`, which begins a fragment.
pub fn paths()
    ensures usual { is_path (codes "/v1/traces") ≡ true }
    ensures root { is_path (codes "/") ≡ true }
    ensures query { is_path (codes "/a?b=%20!~") ≡ true }
    ensures fragment { is_path (codes "/a?b#c") ≡ false }
    ensures empty { is_path [] ≡ false }
    ensures no_slash { is_path (codes "v1/traces") ≡ false }
    ensures space { is_path (codes "/a b") ≡ false }
    ensures end_of_line { is_path (codes "/\r\n") ≡ false }
    ensures not_ascii { is_path (47 ∷ 195 ∷ 169 ∷ []) ≡ false }
    ensures below_visible { is_path_byte 32 ≡ false }
    ensures first_visible { is_path_byte 33 ≡ true }
    ensures below_fragment { is_path_byte 34 ≡ true }
    ensures above_fragment { is_path_byte 36 ≡ true }
    ensures last_visible { is_path_byte 126 ≡ true }
    ensures above_visible { is_path_byte 127 ≡ false }
{}
