//! Products and inverses of an independent program, and the order of the tables' base.
use crate::field::PRODUCTS;
use field_tables::{Tables, mul_fast};
use tower_field::{Field, Gf128};

/// A product, and the inverse of its first factor.
struct Row {
    a: u128,
    b: u128,
    product: u128,
    inverse: u128,
}

/// An independent program written from the field's description gave these.
const ROWS: [Row; 12] = [
    Row {
        a: 0x855a_777d_484f_c878_9311_ece1_7c0a_d3c5,
        b: 0xd7ec_74e6_43da_718b_32a0_68d0_0210_1fe6,
        product: 0xb22b_a96e_5f94_8fb0_e90c_d378_5923_16cd,
        inverse: 0xf8d0_5478_5acc_5b5d_ce6d_5b1a_98b9_e860,
    },
    Row {
        a: 0xf9be_9866_7189_a09e_1bb5_ffe3_b84a_ef6b,
        b: 0x1053_61a5_a9ca_ba62_c2a0_eba0_1767_7c48,
        product: 0x8dab_eca5_d9d0_e12f_aedb_51dc_d690_df8a,
        inverse: 0xc7ef_e79a_b363_c921_1f99_a89b_9b31_f0ca,
    },
    Row {
        a: 0x1fe8_ca45_91d7_43b3_5670_a784_477c_34fe,
        b: 0x3a20_4fbb_4f12_f9e3_931b_8c6b_87f3_cad5,
        product: 0xc2da_aee4_2c1e_4cab_5d9c_53cf_03f1_8b8c,
        inverse: 0x19c4_a212_b7fa_b380_3f5f_f12c_f600_9682,
    },
    Row {
        a: 0xe2d5_c649_08c6_aedd_4f7c_2811_b1fb_229c,
        b: 0xc7cf_54d2_b648_254e_6808_dfa1_fd34_3dac,
        product: 0x0e6f_75f4_37d6_7e68_d26c_a6ec_fa9f_8e33,
        inverse: 0x26f7_7353_f52d_5cba_f22f_f7c3_1c0b_ea10,
    },
    Row {
        a: 0xa5c4_49e0_b702_feec_fd1d_d796_68b0_5bea,
        b: 0x4e06_2665_c91f_10a2_a220_f000_f5ce_89ca,
        product: 0x4f39_0091_c121_8185_9aeb_5a44_6d5b_1e9e,
        inverse: 0x695a_5dac_91ef_cf1a_98f3_15c9_23a4_4fff,
    },
    Row {
        a: 0x5065_7330_0d64_4702_714b_42e4_bf6a_bde1,
        b: 0x11d4_3524_52a6_7f96_ebcb_9dc9_7cf8_e910,
        product: 0xe574_df52_d5a5_28a2_e9f7_1ca6_7c63_fe36,
        inverse: 0xadf5_c1a7_9db6_28dc_f440_099a_34a6_ea7a,
    },
    Row {
        a: 0xf077_a7fe_0146_4c8e_da28_671c_e34a_53ac,
        b: 0x46e3_7a0d_6b01_2b22_0753_303a_597c_546b,
        product: 0xce64_08f3_0e40_50da_007a_25a2_6a4c_3e14,
        inverse: 0x27b6_3780_2079_3d4a_1609_042a_dab1_a779,
    },
    Row {
        a: 0x9842_0590_55e2_ae8a_1fc3_f962_86c9_23a3,
        b: 0x8bf8_6e76_d1bf_50fd_8d50_af9a_5bba_f6ba,
        product: 0x11aa_2304_655b_6326_c170_1e7f_a2d3_0d72,
        inverse: 0x2902_6cc2_9434_5462_e08b_e81c_9088_7da4,
    },
    Row {
        a: 0x8cd3_a5d4_66df_1ade_993f_9ef2_787c_5320,
        b: 0xca91_b2cd_46f9_73d2_8fd7_a23e_c6e9_b141,
        product: 0xb2e4_7474_9eae_b0d0_b1e3_087b_4842_6a04,
        inverse: 0x124f_2c18_0ed7_b88d_853b_b595_ecb4_df02,
    },
    Row {
        a: 0x56a5_2c4b_a928_5e59_9728_acdb_b857_acf5,
        b: 0xe0a0_026a_c5f9_e217_41be_1f72_2c1f_7e8b,
        product: 0xf345_61bb_a161_87a7_f1d7_8591_e906_0e65,
        inverse: 0x87a9_9633_875b_ae5b_78d6_3faf_d9fd_75d4,
    },
    Row {
        a: 0x5e1e_07ec_b6c2_6a2f_e16b_daa1_acd7_6793,
        b: 0xcaac_675d_740d_f5cd_2843_a9eb_a218_764e,
        product: 0x2e0e_3248_9e94_d1b2_e318_e85d_6e7b_642e,
        inverse: 0xe386_b7ef_88c6_e68b_c3ae_3bea_7b81_5d70,
    },
    Row {
        a: 0x9120_1a75_8bd9_9691_b4f9_f75e_d8cf_aeca,
        b: 0x7ca6_abdd_f7d7_40fa_fb10_4be3_a739_44c2,
        product: 0xb2ad_6ae6_a183_019b_8045_110b_02af_4a67,
        inverse: 0x1cfd_d880_7fa8_7d4c_5482_8c66_73bb_646d,
    },
];

fn is_product(a: u128, b: u128, product: u128) -> bool {
    Gf128(a).mul(Gf128(b)).value() == product
}

fn is_fast_product(tables: &Tables, a: u128, b: u128, product: u128) -> bool {
    mul_fast(tables, a, b) == product
}

fn is_inverse(a: u128, inverse: u128) -> bool {
    Gf128(a).invert() == Some(Gf128(inverse))
}

fn are_right(tables: &Tables, rows: &[Row]) -> bool {
    let mut right = true;
    for row in rows {
        right = is_product(row.a, row.b, row.product) & right;
        right = is_fast_product(tables, row.a, row.b, row.product) & right;
        right = is_inverse(row.a, row.inverse) & right;
    }
    right
}

#[test]
fn products_and_inverses_match_an_independent_program(rt: HostRuntime) {
    let tables = Tables::new();
    assert!(rt; are_right(&tables, &ROWS));
}

fn are_fast_products(tables: &Tables, rows: &[(u128, u128, u128)]) -> bool {
    let mut right = true;
    for (a, b, product) in rows {
        right = is_fast_product(tables, *a, *b, *product) & right;
    }
    right
}

#[test]
fn products_by_tables_are_the_worked_ones(rt: HostRuntime) {
    let tables = Tables::new();
    assert!(rt; are_fast_products(&tables, &PRODUCTS));
}

fn next_power(tables: &Tables, power: u128) -> u128 {
    mul_fast(tables, power, 128)
}

// Marks a power as seen. False where it was seen before, or is none of the least 256 numbers.
fn is_new(seen: &mut [bool; 256], power: u128) -> bool {
    if power >= 256 || seen[power as usize] {
        return false;
    }
    seen[power as usize] = true;
    true
}

/// The powers 128^0 to 128^254 all differ.
#[test]
fn powers_of_the_base_differ(rt: HostRuntime) {
    let tables = Tables::new();
    let mut seen = [false; 256];
    let mut power: u128 = 1;
    let mut differ = true;
    for _ in 0..255u32 {
        differ = is_new(&mut seen, power) & differ;
        power = next_power(&tables, power);
    }
    assert!(rt; differ && power == 1);
}
