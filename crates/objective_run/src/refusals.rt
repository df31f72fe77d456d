// Every InvalidInput of the objective.
use work::QuadratureEvaluations;

pub fn at(name: &[u8], x: [f64; 4], litters: &[u32]) {
    let rule = legendre::legendre();
    let o = objective::limited_objective(rule, x, litters, QuadratureEvaluations(8388608));
    crate::say::objective(name, o);
}

fn point(name: &[u8], x: [f64; 4]) {
    at(name, x, &[1u32, 2, 0]);
}

pub fn points() {
    point(b"a point inside", [8.0, -8.0, 0.0, 9.0]);
    point(b"mean NaN", [num::not_a_number(), 0.0, 0.0, 0.0]);
    point(b"mean infinite", [0.0, num::infinity(), 0.0, 0.0]);
    point(b"mean above 8", [8.000000000000002, 0.0, 0.0, 0.0]);
    point(b"mean below -8", [0.0, -8.000000000000002, 0.0, 0.0]);
    point(b"variance NaN", [0.0, 0.0, num::not_a_number(), 0.0]);
    point(b"variance infinite", [0.0, 0.0, 0.0, num::infinity()]);
    point(b"variance below 0", [0.0, 0.0, -5e-324, 0.0]);
    point(b"variance above 9", [0.0, 0.0, 0.0, 9.000000000000002]);
}

pub fn litters() {
    at(b"no litters", [0.0; 4], &[]);
    at(b"numbers left over", [0.0; 4], &[1u32, 2, 0, 1]);
    at(b"group 2", [0.0; 4], &[1u32, 2, 2]);
    at(b"no pups", [0.0; 4], &[0u32, 0, 0]);
    at(b"1000 pups", [0.0; 4], &[1u32, 1000, 0]);
    at(b"1001 pups", [0.0; 4], &[1u32, 1001, 0]);
    at(b"more affected than pups", [0.0; 4], &[3u32, 2, 0]);
}
