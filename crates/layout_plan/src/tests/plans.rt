//! Entries learnt in turn, and what their classes' plans then measure.
use super::entry;
use crate::*;
use scalar_types::Order;
use std::alloc::{AllocError, Global};
use std::test::Fail;

/// What `measure` answers of `SHORT` and of `LONG` by the plan of a class. None where the class has no plan.
type Answers = Option<(Result<Measured, BodyFault>, Result<Measured, BodyFault>)>;

const SHORT: [u8; 2] = [1, 0];

const LONG: [u8; 8] = [0, 0, 0, 0, 0, 0, 0, 0];

const NUMBER: [(&str, &str); 1] = [("a", "INT_2U")];

const BY_NUMBER: Answers = Some((
    Ok(Measured {
        zero_texts: 0,
        links: 0,
    }),
    Err(BodyFault {
        field: 1,
        reason: BodyReason::BodyLong,
    }),
));

const TEXT_AND_LINK: [(&str, &str); 2] = [("t", "STRING"), ("p", "PTR_STRUCT(X *)")];

const BY_TEXT_AND_LINK: Answers = Some((
    Err(BodyFault {
        field: 0,
        reason: BodyReason::BodyShort,
    }),
    Ok(Measured {
        zero_texts: 1,
        links: 1,
    }),
));

const LIST: [(&str, &str); 2] = [("n", "INT_1U"), ("v", "CHAR[n]")];

const BY_LIST: Answers = Some((
    Ok(Measured {
        zero_texts: 0,
        links: 0,
    }),
    Err(BodyFault {
        field: 2,
        reason: BodyReason::BodyLong,
    }),
));

const NO_TYPE: [(&str, &str); 1] = [("a", "INT_3U")];

const CHAR_COUNTER: [(&str, &str); 2] = [("n", "CHAR"), ("v", "CHAR[n]")];

/// A class and the elements of the entry that is learnt, and then the answers of the classes 3 and 4.
type Step = (
    u16,
    &'static [(&'static str, &'static str)],
    Answers,
    Answers,
);

const STEPS: [Step; 7] = [
    (4, &NO_TYPE, None, None),
    (3, &NUMBER, BY_NUMBER, None),
    (4, &LIST, BY_NUMBER, BY_LIST),
    (3, &TEXT_AND_LINK, BY_TEXT_AND_LINK, BY_LIST),
    (3, &NO_TYPE, BY_TEXT_AND_LINK, BY_LIST),
    (3, &CHAR_COUNTER, BY_TEXT_AND_LINK, BY_LIST),
    (4, &CHAR_COUNTER, BY_TEXT_AND_LINK, BY_LIST),
];

/// Whether the entry of these elements is one that may be learnt, and `learn` answers Ok.
fn is_learnt(
    alloc: Global,
    plans: &mut Plans,
    class: u16,
    elements: &[(&str, &str)],
) -> Result<bool, AllocError> {
    let entry = entry(alloc, class, elements)?;
    if entry.class < 3 || entry.class > 255 || entry.elements.len() > 4096 {
        return Ok(false);
    }
    Ok(plans.learn(&entry).is_ok())
}

fn answers(plans: &Plans, class: u8) -> Answers {
    let plan = plans.plan(class)?;
    Some((
        measure(plan, Order::Little, &SHORT),
        measure(plan, Order::Little, &LONG),
    ))
}

#[test]
fn each_class_has_the_plan_learnt_last(rt: HostRuntime) -> Result<(), Fail> {
    let alloc = rt.alloc();
    let mut plans = Plans::new(alloc);
    assert_eq!(rt; answers(&plans, 3), None);
    for (i, (class, elements, of_3, of_4)) in STEPS.iter().enumerate() {
        let learnt = is_learnt(alloc, &mut plans, *class, elements)?;
        assert!(rt; learnt, "step {i}");
        assert_eq!(rt; answers(&plans, 3), *of_3, "class 3 after step {i}");
        assert_eq!(rt; answers(&plans, 4), *of_4, "class 4 after step {i}");
    }
    Ok(())
}
