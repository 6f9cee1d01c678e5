// The `cfg` options of targets. `tools/rustc/cfg-tables.py` compares them with the options that
// rustc prints.
ghost use Rattle.std.specs.Prelude.{◌≡◌};
ghost use Rattle.mbe_cfg.specs.Targets.{rows, options};

use crate::cfg_options::CfgOption;

/// A target whose options are known.
#[derive(Clone, Copy, Drop)]
pub enum Target {
    /// `x86_64-unknown-linux-gnu`
    X86_64Linux,
    /// `x86_64-pc-windows-msvc`
    X86_64Windows,
    /// `x86_64-apple-darwin`
    X86_64Mac,
    /// `aarch64-apple-darwin`
    Aarch64Mac,
    /// `wasm32-unknown-unknown`
    Wasm32,
}

// Writes options: names alone, and names with each of their values.
macro_rules! cfgs {
    ($($name:literal),+; $($named:literal = $($value:literal),+;)+) => {
        &[
            $(CfgOption { name: $name, value: None },)+
            $($(CfgOption { name: $named, value: Some($value) },)+)+
        ]
    };
}

const X86_64_LINUX: &[CfgOption<'static>] = cfgs! {
    "debug_assertions", "unix";
    "panic" = "unwind";
    "target_abi" = "";
    "target_arch" = "x86_64";
    "target_endian" = "little";
    "target_env" = "gnu";
    "target_family" = "unix";
    "target_feature" = "fxsr", "sse", "sse2";
    "target_has_atomic" = "16", "32", "64", "8", "ptr";
    "target_os" = "linux";
    "target_pointer_width" = "64";
    "target_vendor" = "unknown";
};

const X86_64_WINDOWS: &[CfgOption<'static>] = cfgs! {
    "debug_assertions", "windows";
    "panic" = "unwind";
    "target_abi" = "";
    "target_arch" = "x86_64";
    "target_endian" = "little";
    "target_env" = "msvc";
    "target_family" = "windows";
    "target_feature" = "cmpxchg16b", "fxsr", "sse", "sse2", "sse3";
    "target_has_atomic" = "128", "16", "32", "64", "8", "ptr";
    "target_os" = "windows";
    "target_pointer_width" = "64";
    "target_vendor" = "pc";
};

const X86_64_MAC: &[CfgOption<'static>] = cfgs! {
    "debug_assertions", "unix";
    "panic" = "unwind";
    "target_abi" = "";
    "target_arch" = "x86_64";
    "target_endian" = "little";
    "target_env" = "";
    "target_family" = "unix";
    "target_feature" = "cmpxchg16b", "fxsr", "sse", "sse2", "sse3", "sse4.1", "ssse3";
    "target_has_atomic" = "128", "16", "32", "64", "8", "ptr";
    "target_os" = "macos";
    "target_pointer_width" = "64";
    "target_vendor" = "apple";
};

const AARCH64_MAC: &[CfgOption<'static>] = cfgs! {
    "debug_assertions", "unix";
    "panic" = "unwind";
    "target_abi" = "";
    "target_arch" = "aarch64";
    "target_endian" = "little";
    "target_env" = "";
    "target_family" = "unix";
    "target_feature" = "aes", "crc", "dit", "dotprod", "dpb", "dpb2", "fcma", "fhm", "flagm",
        "fp16", "frintts", "jsconv", "lor", "lse", "neon", "paca", "pacg", "pan", "pmuv3", "ras",
        "rcpc", "rcpc2", "rdm", "sb", "sha2", "sha3", "ssbs", "vh";
    "target_has_atomic" = "128", "16", "32", "64", "8", "ptr";
    "target_os" = "macos";
    "target_pointer_width" = "64";
    "target_vendor" = "apple";
};

const WASM32: &[CfgOption<'static>] = cfgs! {
    "debug_assertions";
    "panic" = "abort";
    "target_abi" = "";
    "target_arch" = "wasm32";
    "target_endian" = "little";
    "target_env" = "";
    "target_family" = "wasm";
    "target_feature" = "bulk-memory", "multivalue", "mutable-globals", "nontrapping-fptoint",
        "reference-types", "sign-ext";
    "target_has_atomic" = "16", "32", "64", "8", "ptr";
    "target_os" = "unknown";
    "target_pointer_width" = "32";
    "target_vendor" = "unknown";
};

impl Target {
    /// Returns the target's options.
    pub fn options(self) -> &'static [CfgOption<'static>]
        ensures { rows result.now ≡ options self }
    {
        match self {
            Target::X86_64Linux => X86_64_LINUX,
            Target::X86_64Windows => X86_64_WINDOWS,
            Target::X86_64Mac => X86_64_MAC,
            Target::Aarch64Mac => AARCH64_MAC,
            Target::Wasm32 => WASM32,
        }
    }
}
