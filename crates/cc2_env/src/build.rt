//! The table `build`, by its variables.
use crate::apply_env::ApplyEnv;
use crate::read::{read_first, read_flags, read_incremental, read_one, read_wrapper};
use crate::{ResolveContext, apply_fields};
use cc2_tables::BuildConfig;
use cc2_value::Visited;
use std::alloc::Global;

impl ApplyEnv for BuildConfig {
    ghost use Rattle.cc2_env.specs.Ranks.{build_ranks};

    ghost ranks = { build_ranks };

    fn apply_each(&mut self, alloc: Global, context: &ResolveContext) -> Visited {
        apply_fields!(alloc, context, self;
            "jobs" jobs read_one("CARGO_BUILD_JOBS"),
            "rustc" rustc read_first(&["RUSTC", "CARGO_BUILD_RUSTC"]),
            "rustc-wrapper" rustc_wrapper read_wrapper(&["RUSTC_WRAPPER", "CARGO_BUILD_RUSTC_WRAPPER"]),
            "rustc-workspace-wrapper" rustc_workspace_wrapper
                read_wrapper(&["RUSTC_WORKSPACE_WRAPPER", "CARGO_BUILD_RUSTC_WORKSPACE_WRAPPER"]),
            "rustdoc" rustdoc read_first(&["RUSTDOC", "CARGO_BUILD_RUSTDOC"]),
            "target" target read_one("CARGO_BUILD_TARGET"),
            "target-dir" target_dir read_first(&["CARGO_TARGET_DIR", "CARGO_BUILD_TARGET_DIR"]),
            "build-dir" build_dir read_one("CARGO_BUILD_BUILD_DIR"),
            "rustflags" rustflags read_flags("CARGO_ENCODED_RUSTFLAGS", &["RUSTFLAGS", "CARGO_BUILD_RUSTFLAGS"]),
            "rustdocflags" rustdocflags
                read_flags("CARGO_ENCODED_RUSTDOCFLAGS", &["RUSTDOCFLAGS", "CARGO_BUILD_RUSTDOCFLAGS"]),
            "incremental" incremental read_incremental(),
            "dep-info-basedir" dep_info_basedir read_one("CARGO_BUILD_DEP_INFO_BASEDIR"),
        )
    }
}
