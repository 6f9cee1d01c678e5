// Crates of a few files, with `include!` and `#[path]`, and the tree of each.
use test_rows::rows;

// Each row has the files of a crate, the tree of the crate, and its modules and includes without a
// file. The root is the first file. Each file is `PATH: TEXT` with a `|` after it.
pub const ROWS: &str = rows![
    (
        "src/lib.rs: a include!(\"b.rs\"); c|src/b.rs: d",
        "a include!(\"b.rs\"); c",
        "",
    ),
    (
        "src/lib.rs: include!(\"b.rs\"); c|src/b.rs: d",
        "include!(\"b.rs\"); d c",
        "",
    ),
    (
        "lib.rs: use a; #[b] include!(\"x/b.rs\",); c|x/b.rs: mod e; #[path = \"g.rs\"] mod f;|x/e.rs: h|x/g.rs: i",
        "use a; #[b] include!(\"x/b.rs\",); mod e { h } #[path = \"g.rs\"] mod f { i } c",
        "",
    ),
    (
        "src/lib.rs: f!{} include! { r\"b.rs\" } include![\"c.rs\"]; d|src/b.rs: e|src/c.rs: f",
        "f!{} include! { r\"b.rs\" } e include![\"c.rs\"]; f d",
        "",
    ),
    (
        "src/lib.rs: mod a { mod b; }|src/a/b.rs: mod d { include!(\"c.rs\"); }|src/a/c.rs: e",
        "mod a { mod b { mod d { include!(\"c.rs\"); e } } }",
        "",
    ),
    (
        "src/lib.rs: mod a;|src/a.rs: include!(\"b.rs\"); mod b;|src/b.rs: c|src/a/b.rs: d",
        "mod a { include!(\"b.rs\"); c mod b { d } }",
        "",
    ),
    (
        "lib.rs: include!(\"b.rs\"); include!(concat!(\"b\", \".rs\")); include!(\"b.rs\" c);|b.rs: d",
        "include!(\"b.rs\"); d include!(concat!(\"b\", \".rs\")); include!(\"b.rs\" c);",
        "",
    ),
    (
        "lib.rs: const A: u8 = include!(\"b.rs\"); fn f() { include!(\"b.rs\"); } m!(include!(\"b.rs\"););|b.rs: d",
        "const A: u8 = include!(\"b.rs\"); fn f() { include!(\"b.rs\"); } m!(include!(\"b.rs\"););",
        "",
    ),
    (
        "lib.rs: include_str!(\"b.rs\"); include!(b); a::include!(\"b.rs\"); c|b.rs: d",
        "include_str!(\"b.rs\"); include!(b); a::include!(\"b.rs\"); c",
        "",
    ),
    (
        "src/lib.rs: include!(\"b.rs\"); include!(\"c.rs\"); mod d;|src/c.rs: \"",
        "include!(\"b.rs\"); include!(\"c.rs\"); mod d;",
        "b.rs missing c.rs no Rust d missing ",
    ),
    (
        "lib.rs: include!(\"b.rs\");|b.rs: c include!(\"lib.rs\");|a.rs: e",
        "include!(\"b.rs\"); c include!(\"lib.rs\");",
        "",
    ),
    (
        "lib.rs: include!(\"b.rs\");|b.rs: c; include!(\"lib.rs\"); include!(\"b.rs\");",
        "include!(\"b.rs\"); c; include!(\"lib.rs\"); include!(\"b.rs\");",
        "lib.rs circular b.rs circular ",
    ),
    (
        "lib.rs: include!(\"b.rs\"); include!(\"b.rs\");|b.rs: c",
        "include!(\"b.rs\"); c include!(\"b.rs\"); c",
        "",
    ),
    (
        "lib.rs: #[cfg_attr(a, path = \"b.rs\")] mod c;|b.rs: d|c.rs: e",
        "#[cfg_attr(a, path = \"b.rs\")] mod c { d }",
        "",
    ),
    (
        "lib.rs: #[cfg_attr(path = \"b.rs\", f, g(h), path = r\"c.rs\", path = \"a.rs\")] mod c;|a.rs: d|b.rs: d|c.rs: e",
        "#[cfg_attr(path = \"b.rs\", f, g(h), path = r\"c.rs\", path = \"a.rs\")] mod c { e }",
        "",
    ),
    (
        "lib.rs: #[cfg_attr(a, b)] #[cfg_attr(a, path = \"b.rs\")] #[path = \"c.rs\"] mod d;|b.rs: e|c.rs: f",
        "#[cfg_attr(a, b)] #[cfg_attr(a, path = \"b.rs\")] #[path = \"c.rs\"] mod d { e }",
        "",
    ),
    (
        "lib.rs: #[path = \"c.rs\"] #[cfg_attr(a, path = \"b.rs\")] mod d;|b.rs: e|c.rs: f",
        "#[path = \"c.rs\"] #[cfg_attr(a, path = \"b.rs\")] mod d { f }",
        "",
    ),
    (
        "lib.rs: #[cfg_attr(a)] #[cfg_attr] #[b(a, path = \"b.rs\")] mod d;|b.rs: e|d.rs: f",
        "#[cfg_attr(a)] #[cfg_attr] #[b(a, path = \"b.rs\")] mod d { f }",
        "",
    ),
];
