// What a plan is refused for.
use bulk_base::Text;
use bulk_model::Which;
use case_text::{push_number, push_str, push_text, push_texts};
use dist_files::DistWhy;
use plan_maker::PlanError;
use std::alloc::{AllocError, Global};
use tree_index::PortKind;

fn push_named(out: &mut Vec<u8>, name: &str, texts: &[&Text]) -> Result<(), AllocError> {
    push_str(out, name)?;
    for text in texts {
        push_str(out, " ")?;
        push_text(out, text)?;
    }
    Ok(())
}

fn kind_name(kind: &PortKind) -> &'static str {
    match kind {
        PortKind::Reserved => " Reserved",
        PortKind::Distinfo => " Distinfo",
        _ => " of another kind",
    }
}

fn limit_name(which: Which) -> &'static str {
    match which {
        Which::FileBytes => "Limit FileBytes ",
        Which::PlanNodes => "Limit PlanNodes ",
        Which::JobBytes => "Limit JobBytes ",
        Which::DistBytes => "Limit DistBytes ",
        _ => "Limit of another kind ",
    }
}

fn push_why(alloc: Global, why: DistWhy, out: &mut Vec<u8>) -> Result<(), AllocError> {
    match why {
        DistWhy::Absent => push_str(out, " Absent"),
        DistWhy::Digest { .. } => push_str(out, " Digest"),
        DistWhy::Size { stated, found } => {
            push_str(out, " Size ")?;
            push_number(alloc, out, stated)?;
            push_str(out, " ")?;
            push_number(alloc, out, found)
        }
    }
}

/// Puts a refusal at the end: its variant and its fields.
pub(crate) fn push_refusal(
    alloc: Global,
    refusal: &PlanError,
    out: &mut Vec<u8>,
) -> Result<(), AllocError> {
    match refusal {
        PlanError::NoDepend { port, origin } => push_named(out, "NoDepend", &[port, origin]),
        PlanError::MovedDepend { port, old, new } => {
            push_named(out, "MovedDepend", &[port, old, new])
        }
        PlanError::Limit { which, count } => {
            push_str(out, limit_name(*which))?;
            push_number(alloc, out, *count)
        }
        PlanError::Loop { ports } => {
            push_str(out, "Loop")?;
            push_texts(out, ports.as_slice())
        }
        PlanError::TreeFault => push_str(out, "TreeFault"),
        PlanError::BadPort { path, line, kind } => {
            push_named(out, "BadPort", &[path])?;
            push_str(out, ":")?;
            push_number(alloc, out, u64::from(*line))?;
            push_str(out, kind_name(kind))
        }
        PlanError::BadDist { port, file, why } => {
            push_named(out, "BadDist", &[port, file.text()])?;
            push_why(alloc, *why, out)
        }
        PlanError::NoMemory => push_str(out, "NoMemory"),
    }
}
