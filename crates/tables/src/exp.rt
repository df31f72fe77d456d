// The table of `exp`. Row i is for 2^(i/64): `value` is the nearest f64, and `rest` what its rounding lost, relative to it.
// Written by tools/tables.py.
ghost use Rattle.std.specs.Prelude.{◌≡◌};
ghost use Rattle.tables.specs.Exp.{exp_row_of};

#[derive(Clone, Copy)]
pub struct ExpRow {
    pub value: f64,
    pub rest: f64,
}

// Constants, since a `-` in an arm would be a step of the code: a long table would take ten times as long to check.
const ROW0: ExpRow = ExpRow {
    value: 1.0,
    rest: 0.0,
};

const ROW1: ExpRow = ExpRow {
    value: 1.0108892860517005,
    rest: -1.507066976926039e-17,
};

const ROW2: ExpRow = ExpRow {
    value: 1.0218971486541166,
    rest: 4.9997448722726326e-17,
};

const ROW3: ExpRow = ExpRow {
    value: 1.0330248790212284,
    rest: 7.357846871247418e-18,
};

const ROW4: ExpRow = ExpRow {
    value: 1.0442737824274138,
    rest: 8.189317638195515e-17,
};

const ROW5: ExpRow = ExpRow {
    value: 1.0556451783605572,
    rest: 1.6665881442326747e-18,
};

const ROW6: ExpRow = ExpRow {
    value: 1.0671404006768237,
    rest: -7.402825309426177e-17,
};

const ROW7: ExpRow = ExpRow {
    value: 1.0787607977571199,
    rest: -6.170654745608695e-17,
};

const ROW8: ExpRow = ExpRow {
    value: 1.0905077326652577,
    rest: -2.7939114859515733e-17,
};

const ROW9: ExpRow = ExpRow {
    value: 1.102382583307841,
    rest: 4.776959425256223e-17,
};

const ROW10: ExpRow = ExpRow {
    value: 1.1143867425958924,
    rest: 9.341710609905046e-17,
};

const ROW11: ExpRow = ExpRow {
    value: 1.1265216186082418,
    rest: 4.585670326662351e-17,
};

const ROW12: ExpRow = ExpRow {
    value: 1.1387886347566916,
    rest: 7.826573258636076e-17,
};

const ROW13: ExpRow = ExpRow {
    value: 1.1511892299529827,
    rest: 2.823784425951061e-17,
};

const ROW14: ExpRow = ExpRow {
    value: 1.1637248587775775,
    rest: 3.2904726646008416e-17,
};

const ROW15: ExpRow = ExpRow {
    value: 1.1763969916502812,
    rest: 4.721368121170128e-17,
};

const ROW16: ExpRow = ExpRow {
    value: 1.189207115002721,
    rest: 3.3484623336251524e-17,
};

const ROW17: ExpRow = ExpRow {
    value: 1.202156731452703,
    rest: 5.527550048505249e-17,
};

const ROW18: ExpRow = ExpRow {
    value: 1.215247359980469,
    rest: -6.346552106729483e-17,
};

const ROW19: ExpRow = ExpRow {
    value: 1.22848053610687,
    rest: -1.5456342819397733e-17,
};

const ROW20: ExpRow = ExpRow {
    value: 1.241857812073484,
    rest: 3.750854201303127e-17,
};

const ROW21: ExpRow = ExpRow {
    value: 1.255380757024691,
    rest: -5.346099009198751e-18,
};

const ROW22: ExpRow = ExpRow {
    value: 1.2690509571917332,
    rest: 2.1023049675215714e-18,
};

const ROW23: ExpRow = ExpRow {
    value: 1.2828700160787783,
    rest: 1.3357510088834541e-17,
};

const ROW24: ExpRow = ExpRow {
    value: 1.2968395546510096,
    rest: 1.9572585293112036e-17,
};

const ROW25: ExpRow = ExpRow {
    value: 1.3109612115247644,
    rest: -5.478069123926778e-17,
};

const ROW26: ExpRow = ExpRow {
    value: 1.3252366431597413,
    rest: -2.1571477251208752e-17,
};

const ROW27: ExpRow = ExpRow {
    value: 1.339667524053303,
    rest: 6.663804589232195e-17,
};

const ROW28: ExpRow = ExpRow {
    value: 1.3542555469368927,
    rest: 5.68648095791174e-17,
};

const ROW29: ExpRow = ExpRow {
    value: 1.3690024229745905,
    rest: 7.007875046906994e-17,
};

const ROW30: ExpRow = ExpRow {
    value: 1.383909881963832,
    rest: -4.8923067513522756e-17,
};

const ROW31: ExpRow = ExpRow {
    value: 1.3989796725383112,
    rest: -6.872303720902018e-17,
};

const ROW32: ExpRow = ExpRow {
    value: 1.4142135623730951,
    rest: -6.835808657661922e-17,
};

const ROW33: ExpRow = ExpRow {
    value: 1.42961333839197,
    rest: -8.416011634717156e-18,
};

const ROW34: ExpRow = ExpRow {
    value: 1.4451808069770467,
    rest: -2.092304381843353e-17,
};

const ROW35: ExpRow = ExpRow {
    value: 1.460917794180647,
    rest: -3.833464968654295e-17,
};

const ROW36: ExpRow = ExpRow {
    value: 1.4768261459394993,
    rest: -2.3591094770850053e-17,
};

const ROW37: ExpRow = ExpRow {
    value: 1.4929077282912648,
    rest: 9.50689710108796e-18,
};

const ROW38: ExpRow = ExpRow {
    value: 1.5091644275934228,
    rest: -6.735219232374683e-17,
};

const ROW39: ExpRow = ExpRow {
    value: 1.5255981507445384,
    rest: -7.226635472101257e-17,
};

const ROW40: ExpRow = ExpRow {
    value: 1.5422108254079407,
    rest: 5.1548301170786783e-17,
};

const ROW41: ExpRow = ExpRow {
    value: 1.559004400237837,
    rest: 2.4253985766689806e-17,
};

const ROW42: ExpRow = ExpRow {
    value: 1.5759808451078865,
    rest: -6.432131775424189e-18,
};

const ROW43: ExpRow = ExpRow {
    value: 1.593142151342267,
    rest: -6.336161863401293e-17,
};

const ROW44: ExpRow = ExpRow {
    value: 1.6104903319492543,
    rest: 1.5341410053603723e-17,
};

const ROW45: ExpRow = ExpRow {
    value: 1.6280274218573478,
    rest: -4.123367330661149e-17,
};

const ROW46: ExpRow = ExpRow {
    value: 1.645755478153965,
    rest: -6.152602891550265e-17,
};

const ROW47: ExpRow = ExpRow {
    value: 1.6636765803267364,
    rest: 3.540948262646183e-17,
};

const ROW48: ExpRow = ExpRow {
    value: 1.681792830507429,
    rest: 4.875160526227062e-17,
};

const ROW49: ExpRow = ExpRow {
    value: 1.7001063537185235,
    rest: -4.719539664590972e-18,
};

const ROW50: ExpRow = ExpRow {
    value: 1.718619298122478,
    rest: -1.0772487078934056e-17,
};

const ROW51: ExpRow = ExpRow {
    value: 1.7373338352737062,
    rest: 1.821405440362259e-17,
};

const ROW52: ExpRow = ExpRow {
    value: 1.7562521603732995,
    rest: 1.685487290628973e-17,
};

const ROW53: ExpRow = ExpRow {
    value: 1.7753764925265212,
    rest: 3.621615935336894e-17,
};

const ROW54: ExpRow = ExpRow {
    value: 1.7947090750031072,
    rest: 1.01562190116415e-17,
};

const ROW55: ExpRow = ExpRow {
    value: 1.8142521755003989,
    rest: -5.495118966122005e-17,
};

const ROW56: ExpRow = ExpRow {
    value: 1.8340080864093424,
    rest: 1.790126907604513e-17,
};

const ROW57: ExpRow = ExpRow {
    value: 1.8539791250833855,
    rest: 5.265370768556274e-17,
};

const ROW58: ExpRow = ExpRow {
    value: 1.8741676341103,
    rest: -3.266924100901318e-17,
};

const ROW59: ExpRow = ExpRow {
    value: 1.8945759815869656,
    rest: 1.7963932659833022e-17,
};

const ROW60: ExpRow = ExpRow {
    value: 1.9152065613971474,
    rest: -5.545065618639427e-17,
};

const ROW61: ExpRow = ExpRow {
    value: 1.9360617934922943,
    rest: 5.336805878514151e-17,
};

const ROW62: ExpRow = ExpRow {
    value: 1.9571441241754002,
    rest: 4.5784915277060095e-17,
};

const ROW63: ExpRow = ExpRow {
    value: 1.978456026387951,
    rest: 2.0414278897578303e-17,
};

const NONE: ExpRow = ExpRow {
    value: 0.0,
    rest: 0.0,
};

// A `match` compiles to one load for a field; an array would be built anew at each call.
// Call it from one place only: else it is not inlined, and the whole row goes by way of the stack.
pub fn exp_row(i: u64) -> ExpRow
    ensures { result ≡ exp_row_of i }
{
    match i {
        0 => ROW0,
        1 => ROW1,
        2 => ROW2,
        3 => ROW3,
        4 => ROW4,
        5 => ROW5,
        6 => ROW6,
        7 => ROW7,
        8 => ROW8,
        9 => ROW9,
        10 => ROW10,
        11 => ROW11,
        12 => ROW12,
        13 => ROW13,
        14 => ROW14,
        15 => ROW15,
        16 => ROW16,
        17 => ROW17,
        18 => ROW18,
        19 => ROW19,
        20 => ROW20,
        21 => ROW21,
        22 => ROW22,
        23 => ROW23,
        24 => ROW24,
        25 => ROW25,
        26 => ROW26,
        27 => ROW27,
        28 => ROW28,
        29 => ROW29,
        30 => ROW30,
        31 => ROW31,
        32 => ROW32,
        33 => ROW33,
        34 => ROW34,
        35 => ROW35,
        36 => ROW36,
        37 => ROW37,
        38 => ROW38,
        39 => ROW39,
        40 => ROW40,
        41 => ROW41,
        42 => ROW42,
        43 => ROW43,
        44 => ROW44,
        45 => ROW45,
        46 => ROW46,
        47 => ROW47,
        48 => ROW48,
        49 => ROW49,
        50 => ROW50,
        51 => ROW51,
        52 => ROW52,
        53 => ROW53,
        54 => ROW54,
        55 => ROW55,
        56 => ROW56,
        57 => ROW57,
        58 => ROW58,
        59 => ROW59,
        60 => ROW60,
        61 => ROW61,
        62 => ROW62,
        63 => ROW63,
        _ => NONE,
    }
}

// The same for many numbers at once, whose one place is another.
pub fn exp_lane_row(i: u64) -> ExpRow
    ensures { result ≡ exp_row_of i }
{
    match i {
        0 => ROW0,
        1 => ROW1,
        2 => ROW2,
        3 => ROW3,
        4 => ROW4,
        5 => ROW5,
        6 => ROW6,
        7 => ROW7,
        8 => ROW8,
        9 => ROW9,
        10 => ROW10,
        11 => ROW11,
        12 => ROW12,
        13 => ROW13,
        14 => ROW14,
        15 => ROW15,
        16 => ROW16,
        17 => ROW17,
        18 => ROW18,
        19 => ROW19,
        20 => ROW20,
        21 => ROW21,
        22 => ROW22,
        23 => ROW23,
        24 => ROW24,
        25 => ROW25,
        26 => ROW26,
        27 => ROW27,
        28 => ROW28,
        29 => ROW29,
        30 => ROW30,
        31 => ROW31,
        32 => ROW32,
        33 => ROW33,
        34 => ROW34,
        35 => ROW35,
        36 => ROW36,
        37 => ROW37,
        38 => ROW38,
        39 => ROW39,
        40 => ROW40,
        41 => ROW41,
        42 => ROW42,
        43 => ROW43,
        44 => ROW44,
        45 => ROW45,
        46 => ROW46,
        47 => ROW47,
        48 => ROW48,
        49 => ROW49,
        50 => ROW50,
        51 => ROW51,
        52 => ROW52,
        53 => ROW53,
        54 => ROW54,
        55 => ROW55,
        56 => ROW56,
        57 => ROW57,
        58 => ROW58,
        59 => ROW59,
        60 => ROW60,
        61 => ROW61,
        62 => ROW62,
        63 => ROW63,
        _ => NONE,
    }
}
